//! What rows bring to one domain.

use perm_base::Rule;

/// How many of the rows have the domain's text, and the user and the role of each that is brought to
/// it, as rows of two fields.
pub(crate) struct Tally {
    pub(crate) own: u64,
    pub(crate) rows: Vec<Rule>,
}

// Written out, so that a caller's proof sees one call and not the drop of each field.
impl Drop for Tally {
    fn drop(self) {
        let Tally {
            own: _own,
            rows: _rows,
        } = self;
    }
}
