ghost use Rattle.std.specs.Prelude.{◌≡◌, ◌≤◌, ◌<◌, ◌+◌, ◌∷◌, ◌++◌, IfNone, IfSome, OnOk, drop, false, length, take, vec_len};
ghost use Rattle.text_parts.specs.Lines.{has_byte};
ghost use Rattle.item_stream.specs.Lines.{kept};

use outside::NoMemory;

// How many bytes of a line are kept: one more than it may have.
const KEPT: usize = 65_537;

/// Keeps more bytes of a line, as far as its first bytes go.
pub(crate) fn keep(line: &mut Vec<u8>, more: &[u8]) -> Result<(), NoMemory>
    requires { vec_len line.old ≤ 65537 }
    ensures kept { OnOk result (line.new.items ≡ kept (line.old.items ++ more.now)) }
    ensures short { vec_len line.new ≤ 65537 }
{
    let room = KEPT - line.len();
    let count = more.len().min(room);
    line.extend_from_slice(&more[..count])?;
    Ok(())
}

/// The place of the first LF.
pub(crate) fn line_end(piece: &[u8]) -> Option<usize>
    ensures none { IfNone result (has_byte 10 piece.now ≡ false) }
    ensures within { IfSome result (λ at. at < length piece.now) }
    ensures first { IfSome result (λ at. has_byte 10 (take at piece.now) ≡ false) }
    ensures parts { IfSome result (λ at.
        piece.now ≡ take at piece.now ++ 10 ∷ drop (at + 1) piece.now) }
{
    let at = piece.iter().position(|byte| *byte == b'\n')?;
    Some(at)
}
