//! The tables of a policy: ordered lists of rules without repeats, that of p ranked or not, and the edits that change them.
#![tactic(auto)]

mod change;
mod counted_table;
mod counts;
mod counts_after;
mod domains;
mod filter;
mod laws;
mod limit;
mod moved;
mod passed;
mod patterns;
mod prepared;
mod rank;
mod rank_hints;
mod ranked_rows;
mod rows;
mod rows_after;
mod table;
mod table_edits;
mod tables;

pub use change::{Change, Edit, copy_edit, copy_edits};
pub use filter::fits_filter;
pub use laws::{
    edits_by_table, edits_compose, edits_keep_order, replay_is_edited,
    tables_within_limits_are_lists,
};
pub use limit::{Limit, columns_of, has_short_fields};
pub use prepared::{PreparedTables, TableStep};
pub use rows::Rows;
pub use tables::{Tables, no_tables, ranked_tables};
