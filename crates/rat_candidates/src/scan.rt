//! The clauses with a literal, found by a look at each.
ghost use Rattle.std.specs.Prelude.{◌≡◌};
ghost use Rattle.lrat_model.specs.Literal.{has};
ghost use Rattle.lrat_model.specs.Rat.{first_without};
ghost use Rattle.rat_candidates.specs.Groups.{ids_in};

use crate::hints::has_group;
use clause_store::Store;
use lrat_model::Lit;

/// Whether the literal is in the list.
fn has(literals: &[Lit], l: Lit) -> bool
    ensures { result ≡ has literals.now l }
{
    literals.iter().any(|m| l.same(*m))
}

/// The least id of a clause that has the literal and is named by no RAT hint. O(literals of all clauses that are held, and
/// hints for each clause that has the literal).
pub fn scan(store: &Store, l: Lit, hints: &[i64]) -> Option<u64>
    ensures { result ≡ first_without store.now.held l (ids_in hints.now) }
{
    let last = store.last();
    let mut above = 0;
    while above < last {
        let Some((next, clause)) = store.first_above(above) else {
            return None;
        };
        if has(clause, l) && !has_group(hints, next) {
            return Some(next);
        }
        above = next;
    }
    None
}
