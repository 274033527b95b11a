ghost use Rattle.std.specs.Prelude.{◌≡◌};
ghost use Rattle.item_stream.specs.Lines.{begins_packet};

/// Whether lines begin a packet, and no block: their first word is `edit`.
pub fn is_packet(lines: &[u8]) -> bool
    ensures { result ≡ begins_packet lines.now }
{
    lines.starts_with(b"edit ")
}
