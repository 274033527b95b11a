/// A key that each model has.
#[derive(Clone, Copy, Debug, PartialEq, Eq)]
pub enum Key {
    /// `r`: the columns of a request.
    R,
    /// `p`: the columns of a policy.
    P,
    /// `e`: the effect.
    E,
    /// `m`: the matcher.
    M,
}
