//! The sets of a list that have no proper subset there.
ghost use Rattle.std.specs.Prelude.{◌≡◌, ◌<◌, ◌↔◌, [], ◌++◌, not, All, Contains, length, map, slice_index_or, IfOk, OnOk};
ghost use Rattle.fbas_model.specs.Nodes.{Table, size};
ghost use Rattle.split_journal.specs.Minimal.{IsMinimalAmong, is_proper_part, has_proper_part, kept_if, minimal_among};

use name_set::NodeWords;
use std::alloc::{AllocError, Global};

/// How many members each of the sets has.
fn counts_of<const W: usize>(alloc: Global, sets: &[NodeWords<W>]) -> Result<Vec<u32>, AllocError>
    ensures { IfOk result (λ counts. counts.items ≡ map size sets.now) }
{
    let mut counts = Vec::new(alloc);
    for set in sets {
        counts.push(set.count())?;
    }
    Ok(counts)
}

/// Whether a set is a proper subset of another, by their numbers of members: it then has fewer.
fn is_proper_part<const W: usize>(
    part: &NodeWords<W>,
    few: u32,
    set: &NodeWords<W>,
    many: u32,
) -> bool
    requires same_n { length part.now ≡ length set.now }
    requires few { few ≡ size part.now }
    requires many { many ≡ size set.now }
    ensures { result ≡ is_proper_part set.now part.now }
{
    few < many && part.lies_in(set)
}

/// Whether a proper subset of the set at a place is among the sets, by their numbers of members.
fn has_proper_part<const W: usize>(sets: &[NodeWords<W>], counts: &[u32], place: usize) -> bool
    requires same_n { All (λ s. All (λ t. length t ≡ length s) sets.now) sets.now }
    requires counts { counts.now ≡ map size sets.now }
    requires place { place < length sets.now }
    ensures { result ≡ has_proper_part sets.now (slice_index_or sets.now place []) }
{
    let (set, many) = (&sets[place], counts[place]);
    for at in 0..sets.len() {
        if is_proper_part(&sets[at], counts[at], set, many) {
            return true;
        }
    }
    false
}

/// Adds the set at a place if none of the sets is a proper subset of it.
fn add_if_minimal<const W: usize>(
    sets: &[NodeWords<W>],
    counts: &[u32],
    place: usize,
    minimal: &mut Vec<NodeWords<W>>,
) -> Result<(), AllocError>
    requires same_n { All (λ s. All (λ t. length t ≡ length s) sets.now) sets.now }
    requires counts { counts.now ≡ map size sets.now }
    requires place { place < length sets.now }
    ensures { OnOk result (minimal.new.items ≡ minimal.old.items ++ kept_if (not (has_proper_part sets.now (slice_index_or sets.now place []))) (slice_index_or sets.now place [])) }
{
    if has_proper_part(sets, counts, place) {
        return Ok(());
    }
    minimal.push(sets[place].copy())?;
    Ok(())
}

/// The sets of a list that have no proper subset there, in the list's order: quadratic in their number, where sets of equal
/// sizes cost a comparison of two numbers.
pub fn minimal_among<const W: usize>(
    alloc: Global,
    sets: &[NodeWords<W>],
) -> Result<Vec<NodeWords<W>>, AllocError>
    requires same_n { All (λ s. All (λ t. length t ≡ length s) sets.now) sets.now }
    ensures computed { IfOk result (λ minimal. minimal.items ≡ minimal_among sets.now) }
    ensures exact { IfOk result (λ minimal. (s : Table) → Contains minimal.items s ↔ IsMinimalAmong sets.now s) }
{
    let counts = counts_of(alloc, sets)?;
    let mut minimal = Vec::new(alloc);
    for place in 0..sets.len() {
        add_if_minimal(sets, &counts, place, &mut minimal)?;
    }
    Ok(minimal)
}
