ghost use Rattle.std.specs.Prelude.{◌≡◌, ◌≤◌, ◌<◌, [], IfOk, drop, false, length};
ghost use Rattle.text_parts.specs.Lines.{has_byte};
ghost use Rattle.item_stream.specs.Sections.{GoesTo, ended_at, first_stage, left_at, listed, next_held, section_of};
ghost use Rattle.item_stream.specs.Seen.{seen_option};

use crate::held::{Held, section_of, take_end};
use crate::line_bytes::{keep, line_end};
use crate::section::Section;
use outside::NoMemory;
use std::alloc::Global;
use std::marker::Model;
use std::mem;

/// Cuts a stream into its sections as it comes. It keeps the first 65,537 bytes of the line that is not ended, and of the block
/// that is not ended its lines, at most 16 MiB, or that it is too long.
#[derive(Drop)]
pub struct Sections {
    pub(crate) follow: bool,
    pub(crate) line: Vec<u8>,
    pub(crate) held: Held,
}

impl Model for Sections {
    ghost use Rattle.std.specs.Prelude.{◌≤◌, vec_len};
    ghost use Rattle.item_stream.specs.Sections.{Stage};
    ghost use Rattle.item_stream.specs.Seen.{seen_held};

    ghost Value = { Stage };

    ghost view = { λ s. record { follow = s.follow; line = s.line.items; held = seen_held s.held } };

    ghost invariant = { λ s. vec_len s.line ≤ 65537 };
}

impl Sections {
    /// The reader of a stream before its first byte, of a follower's where packets are sections too. It takes no memory.
    pub fn new(alloc: Global, follow: bool) -> Sections
        ensures { result ≡ first_stage follow }
    {
        Sections {
            follow,
            line: Vec::new(alloc),
            held: Held::Nothing,
        }
    }

    /// Takes the bytes of a piece up to its first LF, or all: how many, and the section that ends with them. Where memory runs
    /// out, what was held may be lost.
    pub fn take_line(
        &mut self,
        alloc: Global,
        piece: &[u8],
    ) -> Result<(usize, Option<Section>), NoMemory>
        requires some { 0 < length piece.now }
        ensures within { IfOk result (λ taken.
            (0 < taken.0) × (taken.0 ≤ length piece.now)) }
        ensures goes { IfOk result (λ taken. GoesTo self.old piece.now
            (listed (seen_option taken.1) []) self.new (drop taken.0 piece.now)) }
    {
        let Some(at) = line_end(piece) else {
            return self.keep_all(piece);
        };
        keep(&mut self.line, &piece[..at])?;
        let section = self.end_line(alloc)?;
        Ok((at + 1, section))
    }

    /// The section that is left where the stream ends: its last line may lack its LF, and a block its `end`. Nothing is held then.
    pub fn take_rest(&mut self, alloc: Global) -> Result<Option<Section>, NoMemory>
        ensures { IfOk result (λ section. seen_option section ≡ left_at self.old) }
    {
        if self.line.is_empty() {
            return Ok(self.take_held());
        }
        let section = self.end_line(alloc)?;
        if section.is_some() {
            return Ok(section);
        }
        Ok(self.take_held())
    }

    // Takes a piece that ends no line.
    fn keep_all(&mut self, piece: &[u8]) -> Result<(usize, Option<Section>), NoMemory>
        requires some { 0 < length piece.now }
        requires no_end { has_byte 10 piece.now ≡ false }
        ensures within { IfOk result (λ taken.
            (0 < taken.0) × (taken.0 ≤ length piece.now)) }
        ensures goes { IfOk result (λ taken. GoesTo self.old piece.now
            (listed (seen_option taken.1) []) self.new (drop taken.0 piece.now)) }
    {
        keep(&mut self.line, piece)?;
        Ok((piece.len(), None))
    }

    // Ends the line: the section that ends with it.
    fn end_line(&mut self, alloc: Global) -> Result<Option<Section>, NoMemory>
        ensures ended { IfOk result (λ section.
            seen_option section ≡ ended_at self.old.follow self.old.held self.old.line) }
        ensures stage { IfOk result (λ _. self.new
            ≡ record {
              follow = self.old.follow;
              line = [];
              held = next_held self.old.follow self.old.held self.old.line;
            }) }
    {
        let line = mem::replace(&mut self.line, Vec::new(alloc));
        let held = mem::replace(&mut self.held, Held::Nothing);
        let (held, section) = take_end(alloc, held, &line, self.follow)?;
        self.held = held;
        Ok(section)
    }

    // What is held, as a section.
    fn take_held(&mut self) -> Option<Section>
        ensures { seen_option result ≡ section_of self.old.held }
    {
        section_of(mem::replace(&mut self.held, Held::Nothing))
    }
}
