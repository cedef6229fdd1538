//! The versions of the formula.

/// How often a gate is written.
#[derive(Clone, Copy, PartialEq, Eq)]
pub enum Version {
    /// Each time that it is wanted.
    One,
    /// Once on each side: what has an equal circuit uses it again.
    Two,
    /// Once on each side, over circuits in order: what has a circuit that differs in no more than the order of inputs uses it
    /// again.
    Three,
}
