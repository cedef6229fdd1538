//! The clauses of listed sets.
ghost use Rattle.std.specs.Prelude.{◌≡◌, ◌≤◌, ◌<◌, ◌^◌, length, IfOk};
ghost use Rattle.fbas_model.specs.Nodes.{members, ◌⊆◌, size};
ghost use Rattle.lrat_model.specs.Ranges.{IsInRange};
ghost use Rattle.enumeration_journal.specs.Kinds.{signed};
ghost use Rattle.enumeration_journal.specs.Numbering.{clause_for};

use crate::kinds::Listed;
use lrat_model::Lit;
use name_set::{MOST_WORDS, NodeWords};
use std::alloc::{AllocError, Global};

/// The literal of a variable in the clause of a set that is sought, or of another.
fn literal(sought: Listed, which: Listed, variable: u32) -> Lit
    requires nonzero { 0 < variable }
    requires small { variable < 2 ^ 31 }
    ensures { result ≡ signed sought which variable }
{
    match (sought, which) {
        (Listed::Quorum, Listed::Quorum)
        | (Listed::Blocking, Listed::Blocking)
        | (Listed::Smaller, Listed::Smaller) => Lit::negative(variable),
        _ => Lit::positive(variable),
    }
}

/// The clause of a set of units that have variables, as the nodes of the greatest quorum: of a set of the sought kind that one of
/// its units is false, else that one is true. Variables go to the units in order, from 1 on. O(n).
pub fn clause_of<const W: usize>(
    alloc: Global,
    sought: Listed,
    which: Listed,
    n: u32,
    units: &NodeWords<W>,
    set: &NodeWords<W>,
) -> Result<Vec<Lit>, AllocError>
    requires words { W ≤ MOST_WORDS }
    requires places { length units.now ≡ n }
    requires same_n { length set.now ≡ n }
    requires few { n < 2 ^ 31 }
    requires within { members set.now ⊆ members units.now }
    ensures clause { IfOk result (λ clause. clause.items ≡ clause_for sought units.now which set.now) }
    ensures range { IfOk result (λ clause. IsInRange (size units.now) clause.items) }
{
    let mut clause = Vec::new(alloc);
    let mut variable = 0;
    for v in units.iter() {
        variable += 1;
        if set.has(v) {
            clause.push(literal(sought, which, variable))?;
        }
    }
    Ok(clause)
}
