//! The clauses of listed sets.
ghost use Rattle.std.specs.Prelude.{◌≡◌, ◌≤◌, ◌<◌, ◌^◌, [], ◌∷◌, length, IfOk};
ghost use Rattle.fbas_model.specs.Nodes.{members, IsInhabited, ◌⊆◌, size};
ghost use Rattle.lrat_model.specs.Literal.{Minus};
ghost use Rattle.lrat_model.specs.Ranges.{IsInRange};
ghost use Rattle.clause_encoder.specs.declared.limits.TheConstants.{MOST_VARS};
ghost use Rattle.clause_encoder.specs.NameCounter.{counted, counter_vars};
ghost use Rattle.least_journal.specs.Least.{clause_in};

use clause_encoder::{MOST_VARS, counter_vars};
use enumeration_journal::{Listed, clause_of};
use lrat_model::Lit;
use name_set::NodeSet;
use std::alloc::{AllocError, Global};

/// The variable that tells that at least m of the g nodes of the greatest quorum are in the set.
fn at_least(g: u32, m: u32) -> u32
    requires vars { counter_vars g ≤ MOST_VARS }
    requires few { m ≤ g }
    ensures { result ≡ counted g g m }
{
    (counter_vars(g) - u64::from(g) + u64::from(m)) as u32
}

/// The clause of a quorum: fewer nodes are in the set.
fn size_clause(alloc: Global, greatest: &NodeSet, set: &NodeSet) -> Result<Vec<Lit>, AllocError>
    requires same_n { length set.now ≡ length greatest.now }
    requires within { members set.now ⊆ members greatest.now }
    requires some { IsInhabited (members set.now) }
    requires vars { counter_vars (size greatest.now) ≤ MOST_VARS }
    ensures clause { IfOk result (λ clause. clause.items ≡ Minus (counted (size greatest.now) (size greatest.now) (size set.now)) ∷ []) }
    ensures range { IfOk result (λ clause. IsInRange (counter_vars (size greatest.now)) clause.items) }
{
    let variable = at_least(greatest.count(), set.count());
    let mut clause = Vec::new(alloc);
    clause.push(Lit::negative(variable))?;
    Ok(clause)
}

/// The clause of a listed set: of a smaller quorum that fewer nodes are in the set, and of another set that which it has where
/// quorums are listed. O(n).
#[tactic(auto, using(crate::proofs::Sizing::wider))]
pub fn clause_in(
    alloc: Global,
    which: Listed,
    n: u32,
    greatest: &NodeSet,
    set: &NodeSet,
) -> Result<Vec<Lit>, AllocError>
    requires places { length greatest.now ≡ n }
    requires same_n { length set.now ≡ n }
    requires few { n < 2 ^ 31 }
    requires within { members set.now ⊆ members greatest.now }
    requires some { which ≡ Listed.Smaller → IsInhabited (members set.now) }
    requires vars { counter_vars (size greatest.now) ≤ MOST_VARS }
    ensures clause { IfOk result (λ clause. clause.items ≡ clause_in greatest.now which set.now) }
    ensures range { IfOk result (λ clause. IsInRange (counter_vars (size greatest.now)) clause.items) }
{
    match which {
        Listed::Smaller => size_clause(alloc, greatest, set),
        Listed::Quorum => clause_of(alloc, Listed::Quorum, Listed::Quorum, n, greatest, set),
        Listed::Blocking => clause_of(alloc, Listed::Quorum, Listed::Blocking, n, greatest, set),
    }
}
