//! Followers: a leader's edits as packets of text, and a policy that takes them lost, repeated or in any order and always holds a
//! front of the leader's edits.
#![tactic(auto)]

mod acceptance;
mod appended;
mod follower;
mod laws;
mod packet;
mod packet_fault;
mod packet_read;
mod packet_text;
mod ship_refused;
mod taken;
mod waiting_edits;

pub use follower::Follower;
pub use laws::{
    bytes_say_packets_once, every_input_is_packets_or_at_fault, followers_hold_a_front,
    packets_are_applied_to_the_least_gap, texts_read_in_one_way,
};
pub use packet::{Packet, Packets};
pub use packet_fault::PacketFault;
pub use packet_read::read_packets;
pub use packet_text::{packet_of, print_packet, print_packets};
pub use ship_refused::ShipRefused;
pub use taken::{TakeRefused, Taken};
