ghost use Rattle.std.specs.Prelude.{◌≤◌, IfErr, IfOk, OnOk, string_bytes};
ghost use Rattle.answer_lines.specs.LineText.{Appends};
ghost use Rattle.outside.specs.Faults.{Rose};
ghost use Rattle.loaded_work.specs.Followed.{IsFollowed, policy_text};
ghost use Rattle.loaded_work.specs.Helps.FollowedPackets.{AreTaken, IsTaken};
ghost use Rattle.loaded_work.specs.Helps.TaskSteps.{IsReady, Showed, TextStops};

use crate::court::next_number;
use crate::loaded::Loaded;
use crate::opened::open_state;
use crate::taken_lines::{push_at, push_taken};
use log_ship::{Follower, Packet, Packets};
use outside::{NoMemory, Sink, push_all};
use policy_csv::print_policy;
use run_status::Stop;
use std::alloc::Global;

/// Takes packets one after the other, and tells what became of each, and then the policy.
pub fn follow<K: Sink>(
    alloc: Global,
    loaded: Loaded,
    packets: &Packets,
    out: &mut K,
) -> Result<(), Stop>
    requires { IsReady loaded }
    ensures shown { OnOk result (Showed
        (IsFollowed loaded.shapes loaded.tables.policy packets.now)
        (K.taken out.old) (K.taken out.new)) }
    ensures stopped { IfErr result (TextStops
        (IsFollowed loaded.shapes loaded.tables.policy packets.now)
        (K.taken out.old) (K.taken out.new) (Rose (K.faults out.old) (K.faults out.new))) }
    ensures counted { K.faults out.old ≤ K.faults out.new }
{
    let text = followed_text(alloc, loaded, packets)?;
    push_all(out, text.as_bytes())?;
    Ok(())
}

// The lines of packets that are taken one after the other, and then the policy.
fn followed_text(alloc: Global, loaded: Loaded, packets: &Packets) -> Result<String, NoMemory>
    requires { IsReady loaded }
    ensures { IfOk result (λ text.
        IsFollowed loaded.shapes loaded.tables.policy packets.now (string_bytes text)) }
{
    let state = open_state(alloc, loaded.shapes, loaded.tables)?;
    let mut follower = Follower::open(alloc, state);
    let mut text = take_all(alloc, &mut follower, packets)?;
    push_policy(alloc, &mut text, &follower)?;
    Ok(text)
}

// Takes packets one after the other; a line for each.
fn take_all(alloc: Global, follower: &mut Follower, packets: &Packets) -> Result<String, NoMemory>
    ensures { IfOk result (λ text.
        AreTaken follower.old packets.now (string_bytes text) follower.new) }
{
    let mut text = String::new(alloc);
    let mut number = 0;
    let sent = packets.as_slice();
    for packet in sent {
        number = next_number(number);
        take_one(alloc, follower, packet, number, &mut text)?;
    }
    Ok(text)
}

// Takes a packet, and appends its line.
fn take_one(
    alloc: Global,
    follower: &mut Follower,
    packet: &Packet,
    number: u32,
    text: &mut String,
) -> Result<(), NoMemory>
    ensures { OnOk result
        (IsTaken follower.old packet.now number text.old text.new follower.new) }
{
    let taken = follower.take(alloc, packet);
    push_taken(text, number, taken)?;
    Ok(())
}

// Appends a follower's version and policy.
fn push_policy(alloc: Global, text: &mut String, follower: &Follower) -> Result<(), NoMemory>
    ensures { OnOk result (Appends text.old text.new (policy_text follower.now)) }
{
    push_at(text, "policy @", follower.version())?;
    text.push_str("\n")?;
    let policy = print_policy(alloc, follower.state().tables())?;
    text.push_str(policy.as_str())?;
    Ok(())
}
