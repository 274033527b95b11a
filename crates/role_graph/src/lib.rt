//! The role graph of one domain: its rows, whether they link two names, and how far.
#![tactic(auto)]

mod asked;
mod builder;
mod closure;
mod edits;
mod graph;
mod groups;
mod implied;
mod insertion;
mod laws;
mod link_groups;
mod linked_nodes;
mod marks;
mod name;
mod name_hash;
mod names;
mod prepared;
mod reach;
mod reached_roles;
mod removal;
mod repair;
mod role_list;
mod role_texts;
mod roles;
mod room;
mod short;
mod touched;
mod users;
mod walk;

pub use builder::GraphBuilder;
pub use dist_rows::Steps;
pub use graph::{RoleGraph, new_graph};
pub use laws::{rows_as_often_reach_the_same, standing_rows_are_counted};
pub use name::Name;
pub use name_hash::{NameHash, NameHasher};
pub use prepared::PreparedGraph;
pub use reach::{Reach, Room};
pub use role_meaning::fits;
