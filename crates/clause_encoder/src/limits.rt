//! How large a formula may be.

/// The most variables of a formula.
pub const MOST_VARS: u64 = 4_000_000;

/// The most clauses of a formula, 2^62: the ids above are left for lemmas.
pub const MOST_CLAUSES: u64 = 4_611_686_018_427_387_904;
