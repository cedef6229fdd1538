//! Lists of ids of organisations in the words of a command line.

ghost use Rattle.std.specs.Prelude.{◌≡◌, ◌≤◌, ℕ, All, length, Ok, Err, Some, IfOk, IfErr};
ghost use Rattle.name_set.specs.Lists.{node_at};
ghost use Rattle.node_json.specs.Organisations.{ids_of, members_under, ids_read};

use crate::organisations::Orgs;
use fbas_model::MOST_NODES;
use name_set::{NameFault, NodeSet, is_key};

// The members of the organisation of the id that stands at a place, or its fault.
fn members_at<'o>(orgs: &'o Orgs, place: u64, id: &[u8]) -> Result<&'o NodeSet, NameFault>
    ensures fault { IfErr result (λ e. node_at (ids_of orgs.now) place id.now ≡ Err e) }
    ensures known { IfOk result (λ s. (at : ℕ) × (node_at (ids_of orgs.now) place id.now ≡ Ok at)) }
    ensures members { IfOk result (λ s. members_under orgs.now id.now ≡ Some s.now) }
{
    if id.is_empty() {
        return Err(NameFault::Empty(place));
    }
    if !is_key(id) {
        return Err(NameFault::BadKey(place));
    }
    orgs.members(id).ok_or(NameFault::Unknown(place))
}

/// The members of the organisations of a list of ids, or its first fault. There are `n` nodes.
///
/// The ids stand between commas, and the empty text is the empty list. An id may stand twice, and in any order. An item is
/// looked at for its length, for being a key and for being the id of an organisation, in this order.
/// O(bytes + k log m + k n / 64) for k items and m organisations. Takes no memory.
pub fn read_ids(text: &[u8], orgs: &Orgs, n: u32) -> Result<NodeSet, NameFault>
    requires sized { All (λ org. length org.members ≡ n) orgs.now }
    requires few { n ≤ MOST_NODES }
    ensures ok { IfOk result (λ s. ids_read text.now orgs.now n ≡ Ok s) }
    ensures err { IfErr result (λ e. ids_read text.now orgs.now n ≡ Err e) }
    ensures fits { IfOk result (λ s. length s ≡ n) }
{
    let mut nodes = NodeSet::new(n);
    if text.is_empty() {
        return Ok(nodes);
    }
    let mut place = 0;
    for item in text.split(|byte| *byte == b',') {
        place += 1;
        let others = members_at(orgs, place, item)?;
        nodes.join(others);
    }
    Ok(nodes)
}
