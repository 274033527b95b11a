use perm_value::View;

/// Where a run stands still: at the end, with its value, or at an `eval`, which stands at this place of the code and
/// serves the node at that one, with a column of the policy.
#[derive(Clone, Copy)]
pub(crate) enum Pause<'a> {
    Value(View<'a>),
    Eval {
        standing: usize,
        at: u32,
        column: u32,
    },
}
