ghost use Rattle.std.specs.Prelude.{◌≡◌, ◌∷◌, ◌++◌, [], IfOk, MatchResult, OnOk, string_bytes};
ghost use Rattle.log_ship.specs.Packets.{IsPacketOf, IsRefusalOf, head_line, log_packets, printed};

use crate::packet::Packet;
use crate::ship_refused::ShipRefused;
use itoa::Buffer;
use outside::{NoMemory, Text};
use policy_state::{PolicyState, QueryRefused};
use std::alloc::Global;
use version_log::print_edit;

/// The packet of an edit: its number, counted from 1, and its text. Refused are a number that no edit has, and one whose edit
/// is dropped, as by `PolicyState::history`.
pub fn packet_of(alloc: Global, state: &PolicyState, number: u32) -> Result<Packet, ShipRefused>
    ensures answer { MatchResult result (IsPacketOf state.now.log number)
        (IsRefusalOf state.now.log number) }
{
    let edit = match state.history(number) {
        Ok(edit) => edit,
        Err(QueryRefused::NoEdit { version }) => return Err(ShipRefused::NoEdit { version }),
        Err(QueryRefused::Dropped { start }) => return Err(ShipRefused::Dropped { start }),
        Err(_) => return Err(ShipRefused::NoMemory),
    };
    let text = print_edit(alloc, edit)?;
    Ok(Packet { number, text })
}

/// Prints a packet: the line `edit NUMBER`, and its text.
pub fn print_packet(alloc: Global, packet: &Packet) -> Result<Text, NoMemory>
    ensures printed { IfOk result (λ text. text ≡ printed packet.now) }
{
    let mut text = String::new(alloc);
    push_packet(&mut text, packet)?;
    Ok(Text::from_string(text))
}

/// Prints the packets of all edits that a policy's log holds, from its start plus 1 to its version, one after the other.
pub fn print_packets(alloc: Global, state: &PolicyState) -> Result<Text, NoMemory>
    ensures printed { IfOk result (λ text. text ≡ log_packets state.now.log) }
{
    let mut text = String::new(alloc);
    for before in state.start()..state.version() {
        let Ok(packet) = packet_of(alloc, state, before + 1) else {
            return Err(NoMemory);
        };
        push_packet(&mut text, &packet)?;
    }
    Ok(Text::from_string(text))
}

// Appends a packet as text.
fn push_packet(text: &mut String, packet: &Packet) -> Result<(), NoMemory>
    ensures { OnOk result (string_bytes text.new ≡ string_bytes text.old ++ printed packet.now) }
{
    push_head(text, packet.number)?;
    text.push_str(packet.text.as_str())?;
    Ok(())
}

// Appends the first line of a packet.
fn push_head(text: &mut String, number: u32) -> Result<(), NoMemory>
    ensures { OnOk result (string_bytes text.new
        ≡ string_bytes text.old ++ (head_line number ++ 10 ∷ [])) }
{
    let mut digits = Buffer::new();
    text.push_str("edit ")?;
    text.push_str(digits.format(number))?;
    text.push_str("\n")?;
    Ok(())
}
