//! Gates with their counters.
ghost use Rattle.std.specs.Prelude.{◌≡◌};
ghost use Rattle.counter_expansion.specs.Counters.{rows_of};

/// A gate that says that at least `threshold` of its inputs are true where one of its heads is, by a sequential counter
/// (Sinz 2005), or the first rows of such a counter. The variables of row i, from 1 on, stand one after another: the j-th of
/// them says that j of the first i inputs are true. The last variable of the last row is named by the counter and the heads'
/// clauses alone.
#[derive(Drop)]
pub struct Counter {
    /// As many variables a row has at most.
    pub threshold: usize,
    /// The variables of the inputs, in order.
    pub inputs: Vec<u32>,
    /// The first variable of each row.
    pub rows: Vec<u32>,
    /// Whether the last row stays where the gate is written out, since the counter goes on after it. Then each of its
    /// variables is a head of as many inputs as its column says.
    pub keeps_last: bool,
    /// The variables of the heads.
    pub heads: Vec<u32>,
    /// The ids of the clauses that lead from the heads to the gate.
    pub head_ids: Vec<u64>,
    /// The id of the counter's first clause, and the id after its last one.
    pub start: u64,
    pub end: u64,
}

/// How many rows go where the gate is written out. O(1).
pub fn place_rows(counter: &Counter) -> usize
    ensures { result ≡ rows_of counter.now }
{
    let kept = if counter.keeps_last { 1 } else { 0 };
    counter.inputs.len().saturating_sub(kept)
}
