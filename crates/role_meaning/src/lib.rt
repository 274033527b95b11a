//! What roles mean: which names a row links, how far a name reaches, how deep it stands, and which
//! roles it has by links.
#![tactic(auto)]

mod fit;
mod laws;
mod plain;

pub use fit::fits;
pub use laws::{
    depth_is_one, distance_is_one, distance_tells_links, implied_roles_are_one,
    implied_users_are_one, links_are_decided, links_go_on, more_links_reach_no_less,
    order_by_depth, plain_names_fit_themselves_alone, same_rows_reach_the_same,
};
pub use plain::plainly_reaches;
