ghost use Rattle.std.specs.Prelude.{◌≡◌, ◌≢◌, ◌∷◌, ◌++◌, ℕ, List, [], false, IfErr, IfNone, IfOk, IfSome, IsUtf8, MatchOption, MatchResult, length, string_bytes};
ghost use Rattle.log_ship.specs.Helps.Reads.{HasRead, IsHead, IsLineFault, IsNumber};
ghost use Rattle.log_ship.specs.PacketText.{AreFront, ArePackets, IsPacketFault, number_at};
ghost use Rattle.log_ship.specs.declared.packet.Packet.{Packet as declared};
ghost use Rattle.log_ship.specs.declared.packet_fault.PacketFault as declared_fault;
ghost use Rattle.text_parts.specs.Lines.{has_byte, with_ends};

use crate::packet::{Packet, Packets};
use crate::packet_fault::PacketFault;
use itoa::Buffer;
use outside::{NoMemory, Text};
use std::alloc::Global;
use text_parts::cut_at;

// The greatest number of a packet.
const MOST_VERSIONS: u32 = 4_000_000_000;

// What stands before a packet's number in its first line, and what its last line is.
const HEAD: &str = "edit ";

const LAST: &str = ".";

/// Where a reader of lines stands.
#[derive(Drop)]
pub(crate) enum Place {
    /// Behind whole packets.
    Between,
    /// Within the packet of a number, behind these lines of its text.
    Within { number: u32, text: String },
}

// The packets that were read, and where the reader stands.
#[derive(Drop)]
struct Reading {
    packets: Vec<Packet>,
    place: Place,
}

/// Reads packets from their printed texts, one after the other: each the line `edit NUMBER`, with a number from 1 to
/// 4,000,000,000 without leading zeros, and lines up to the first `.`, with an LF after every line. Whether these lines are an
/// edit is for `Follower::take` to say.
pub fn read_packets(alloc: Global, bytes: &[u8]) -> Result<Packets, PacketFault>
    // What is read is what the bytes say.
    ensures found { IfOk result (ArePackets bytes.now) }
    // What the bytes say is read, unless memory runs out.
    ensures only { (packets : List declared) → ArePackets bytes.now packets
        → MatchResult result (λ read. read ≡ packets) (λ fault. fault ≡ PacketFault.NoMemory) }

    // The fault is that of the bytes, and their fault is told.
    ensures fault { IfErr result (λ fault.
        fault ≢ PacketFault.NoMemory → IsPacketFault bytes.now fault) }
    ensures only_fault { (first : declared_fault.PacketFault) → IsPacketFault bytes.now first
        → MatchResult result (λ read. ⊥) (λ fault. fault ≢ PacketFault.NoMemory → fault ≡ first) }
{
    let Ok(text) = str::from_utf8(bytes) else {
        return Err(PacketFault::NotUtf8);
    };
    packets_of(alloc, text)
}

// The packets of a text, or its first bad line.
fn packets_of(alloc: Global, text: &str) -> Result<Packets, PacketFault>
    ensures found { IfOk result (ArePackets text.now) }
    ensures fault { IfErr result (λ fault.
        fault ≢ PacketFault.NoMemory → IsPacketFault text.now fault) }
{
    let mut reading = Reading {
        packets: Vec::new(alloc),
        place: Place::Between,
    };
    let mut number: u32 = 1;
    let mut rest = text;
    while let Some((line, after)) = cut_at(rest, b'\n') {
        let Some(next) = take_line(alloc, reading, line)? else {
            return Err(PacketFault::Line { line: number });
        };
        reading = next;
        number = number.saturating_add(1);
        rest = after;
    }
    end(alloc, reading, rest, number)
}

// Takes a line, if it may stand there.
fn take_line(alloc: Global, reading: Reading, line: &str) -> Result<Option<Reading>, NoMemory>
    requires { has_byte 10 line.now ≡ false }
    ensures taken { (front : List (List ℕ)) → HasRead front reading.packets.items reading.place
        → IfOk result (λ found. IfSome found (λ next.
        HasRead (front ++ line.now ∷ []) next.packets.items next.place)) }
    ensures stray { (front : List (List ℕ)) → HasRead front reading.packets.items reading.place
        → IfOk result (λ found. IfNone found (¬ (AreFront (front ++ line.now ∷ [])))) }
{
    let Reading { mut packets, place } = reading;
    match place {
        Place::Between => match head_number(line) {
            Some(number) => {
                let text = String::new(alloc);
                let place = Place::Within { number, text };
                Ok(Some(Reading { packets, place }))
            }
            None => Ok(None),
        },
        Place::Within { number, text } => {
            let text = with_line(text, line)?;
            if line == LAST {
                let text = Text::from_string(text);
                packets.push(Packet { number, text })?;
                let place = Place::Between;
                return Ok(Some(Reading { packets, place }));
            }
            let place = Place::Within { number, text };
            Ok(Some(Reading { packets, place }))
        }
    }
}

// A text with one line more.
fn with_line(mut text: String, line: &str) -> Result<String, NoMemory>
    ensures { IfOk result (λ longer. string_bytes longer ≡ string_bytes text ++ (line.now ++ 10 ∷ [])) }
{
    text.push_str(line)?;
    text.push_str("\n")?;
    Ok(text)
}

// The number of a packet that begins with this line.
fn head_number(line: &str) -> Option<u32>
    ensures { MatchOption result ((number : ℕ) → ¬ (IsHead line.now number)) (IsHead line.now) }
{
    let digits = line.strip_prefix(HEAD)?;
    parsed_number(digits)
}

// The number from 1 to 4,000,000,000 that the digits write, without zeros in front.
fn parsed_number(digits: &str) -> Option<u32>
    ensures { MatchOption result ((number : ℕ) → ¬ (IsNumber digits.now number)) (IsNumber digits.now) }
{
    let Ok(number) = digits.parse::<u32>() else {
        return None;
    };
    if number == 0 || number > MOST_VERSIONS {
        return None;
    }
    let mut buffer = Buffer::new();
    if buffer.format(number) == digits {
        Some(number)
    } else {
        None
    }
}

// The packets, where nothing is left of the text behind the last one; else the fault. What is left has this number.
fn end(alloc: Global, reading: Reading, rest: &str, number: u32) -> Result<Packets, PacketFault>
    requires { has_byte 10 rest.now ≡ false }
    ensures found { (front : List (List ℕ)) → HasRead front reading.packets.items reading.place
        → IsUtf8 (with_ends front ++ rest.now)
        → IfOk result (ArePackets (with_ends front ++ rest.now)) }
    ensures fault { (front : List (List ℕ)) → HasRead front reading.packets.items reading.place
        → number ≡ number_at (length front)
        → IfErr result (λ fault. fault ≢ PacketFault.NoMemory
        → IsLineFault (with_ends front ++ rest.now) fault) }
{
    if rest.is_empty() {
        return match reading.place {
            Place::Between => Ok(Packets::from_vec(reading.packets)),
            _ => Err(PacketFault::Line { line: number }),
        };
    }
    let Some(_reading) = take_line(alloc, reading, rest)? else {
        return Err(PacketFault::Line { line: number });
    };
    Err(PacketFault::Line {
        line: number.saturating_add(1),
    })
}
