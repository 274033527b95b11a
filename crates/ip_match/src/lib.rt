//! IPv4 and IPv6 addresses and blocks as text, and whether an address lies in a block.
#![tactic(auto)]

mod address;
mod block;
mod colons;
mod containment;
mod dotted;
mod laws;
mod numeral;
mod parts;

pub use address::{Address, address_is_unique, read_address};
pub use block::{Block, block_is_unique, read_block};
pub use containment::{IpFault, ip_match};
pub use laws::addresses_are_decided;
