ghost use Rattle.std.specs.Prelude.{◌≡◌};

use outside::NoMemory;

/// Why bytes are not read as packets. Lines are counted from 1; a number above 2^32 - 1 is given as 2^32 - 1.
#[derive(Clone, Copy, Debug, PartialEq, Eq)]
pub enum PacketFault {
    /// The bytes are not UTF-8.
    NotUtf8,
    /// The first line that does not belong: a packet begins there, and the line is no `edit NUMBER`. Where all lines belong, but
    /// the last packet is open or the last LF is missing, the line after the last.
    Line { line: u32 },
    /// Memory ran out.
    NoMemory,
}

impl From<NoMemory> for PacketFault {
    ghost use Rattle.log_ship.specs.declared.packet_fault.PacketFault.TheVariants.{NoMemory};

    ghost from_gives = { λ _ fault. fault ≡ NoMemory };

    fn from(_: NoMemory) -> PacketFault {
        PacketFault::NoMemory
    }
}
