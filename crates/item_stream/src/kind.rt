ghost use Rattle.std.specs.Prelude.{◌≡◌, ◌||◌};
ghost use Rattle.script_read.specs.Lines.{begins_block, ends_block};
ghost use Rattle.item_stream.specs.Lines.{begins_packet, ends_packet, kind_of, kind_of_text};

use crate::packet::is_packet;
use script_read::{begins_block, ends_block};
use text_parts::{is_passed, without_cr};

/// What a line is to the lines before and behind it.
#[derive(Clone, Copy)]
pub(crate) struct Kind {
    /// It says nothing.
    pub passed: bool,
    /// It begins a block, where none is open.
    pub begins: bool,
    /// It ends the block that is open.
    pub ends: bool,
}

/// What a line is, without its LF.
pub(crate) fn kind_of(line: &[u8], follow: bool) -> Kind
    ensures { result ≡ kind_of follow line.now }
{
    let Ok(text) = str::from_utf8(line) else {
        return Kind {
            passed: false,
            begins: false,
            ends: false,
        };
    };
    kind_of_text(without_cr(text), follow)
}

// What a text is as a line.
fn kind_of_text(line: &str, follow: bool) -> Kind
    ensures { result ≡ kind_of_text follow line.now }
{
    let passed = is_passed(line);
    if follow {
        return Kind {
            passed,
            begins: begins_either(line),
            ends: ends_either(line),
        };
    }
    Kind {
        passed,
        begins: begins_block(line),
        ends: ends_block(line),
    }
}

// Whether the line begins a block or a packet.
fn begins_either(line: &str) -> bool
    ensures { result ≡ (begins_block line.now || begins_packet line.now) }
{
    begins_block(line) || begins_packet(line)
}

// Whether the line ends a block or a packet.
fn ends_either(line: &str) -> bool
    ensures { result ≡ (ends_block line.now || ends_packet line.now) }
{
    ends_block(line) || ends_packet(line)
}

// Whether the line begins a packet.
fn begins_packet(line: &str) -> bool
    ensures { result ≡ begins_packet line.now }
{
    is_packet(line.as_bytes())
}

// Whether the line ends a packet.
fn ends_packet(line: &str) -> bool
    ensures { result ≡ ends_packet line.now }
{
    line == "."
}
