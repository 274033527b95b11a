//! A pair of copies of a policy: one administrator edits and publishes, while seats read what is published without a lock.
#![tactic(auto)]

mod admin;
mod admin_edits;
mod book;
mod edits;
mod entrance;
mod front;
mod history_line;
mod laws;
mod naming;
mod pair;
mod places;
mod seat;
mod side;
mod told;

pub use admin::{Admin, AdminOver};
pub use book::OpenedBook;
pub use entrance::Entrance;
pub use front::Front;
pub use history_line::Shows;
pub use laws::{
    administrators_live, entries_are_legal, fronts_begin_each_other, publishes_are_counted,
};
pub use naming::Naming;
pub use pair::open_pair;
pub use places::{ListPlaces, PairPlaces, Places, Refused};
pub use seat::{Entered, Seat, Shut};
