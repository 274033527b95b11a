use outside::{Share, Text};
use std::marker::Model;

/// An edit on its way from a leader to followers: its number, counted from 1, and its text, as `print_edit` prints it. What
/// comes from outside may be any number and any text.
#[derive(Drop)]
pub struct Packet {
    pub number: u32,
    pub text: Text,
}

impl Share for Packet {}

/// Packets, one after the other. Contracts see their list.
pub struct Packets {
    packets: Vec<Packet>,
}

// Written out, so that a caller's proof sees one call and not the drop of each field.
impl Drop for Packets {
    fn drop(self) {
        let Packets { packets: _packets } = self;
    }
}

impl Model for Packets {
    ghost use Rattle.std.specs.Prelude.{List};
    ghost use Rattle.log_ship.specs.declared.packet.Packet.{Packet};

    ghost Value = { List Packet };

    ghost view = { λ p. p.packets.items };
}

impl Packets {
    ghost use Rattle.std.specs.Prelude.{◌≡◌};

    /// These packets. It takes no memory.
    pub fn from_vec(packets: Vec<Packet>) -> Packets
        ensures { result ≡ packets.items }
    {
        Packets { packets }
    }

    /// The packets in their order.
    pub fn as_slice(&self) -> &[Packet]
        ensures { result.now ≡ self.now }
    {
        &self.packets
    }

    /// The packets as a `Vec`. It takes no memory.
    pub fn into_vec(self) -> Vec<Packet>
        ensures { result.items ≡ self }
    {
        let Packets { packets } = self;
        packets
    }
}
