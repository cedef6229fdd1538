//! Names in the words of a command line: one name, or a list of them.

ghost use Rattle.std.specs.Prelude.{◌≡◌, ◌<◌, ◌≤◌, ℕ, length, slice_get, IfOk, IfErr, Ok, Err, Some};
ghost use Rattle.name_set.specs.Lists.{node_at, names_read, name_read};

use crate::NodeSet;
use crate::keys::is_key;
use crate::names::Names;
use fbas_model::MOST_NODES;
use thiserror::Error;

/// Why a text is no list of names: the fault of its first faulty item, and the place of that item, counted from 1.
#[derive(Clone, Copy, Debug, PartialEq, Eq, Error)]
pub enum NameFault {
    /// The item has no bytes.
    #[error("item {0} is empty")]
    Empty(u64),
    /// The item may not be the name of a node.
    #[error("item {0} is not a key")]
    BadKey(u64),
    /// The item is not among the names.
    #[error("item {0} is not a node")]
    Unknown(u64),
}

/// The node of the name that stands at a place, or its fault.
fn node_at(names: &Names, place: u64, item: &[u8]) -> Result<u32, NameFault>
    ensures value { result ≡ node_at names.now place item.now }
    ensures below { IfOk result (λ v. v < length names.now) }
    ensures at { IfOk result (λ v. slice_get names.now v ≡ Some item.now) }
    ensures only { IfOk result (λ v. (other : ℕ) → slice_get names.now other ≡ Some item.now → other ≡ v) }
{
    if item.is_empty() {
        return Err(NameFault::Empty(place));
    }
    if !is_key(item) {
        return Err(NameFault::BadKey(place));
    }
    names.find(item).ok_or(NameFault::Unknown(place))
}

/// The nodes of a list of names, or its first fault.
///
/// The names stand between commas, and the empty text is the empty list. A name that stands twice counts once. An item is
/// looked at for its length, for being a key and for being among the names, in this order. O(bytes + k log n) for k items
/// and n names. Takes no memory.
pub fn read_names(text: &[u8], names: &Names) -> Result<NodeSet, NameFault>
    requires { length names.now ≤ MOST_NODES }
    ensures ok { IfOk result (λ s. names_read text.now names.now ≡ Ok s) }
    ensures err { IfErr result (λ e. names_read text.now names.now ≡ Err e) }
    ensures fits { IfOk result (λ s. length s ≡ length names.now) }
{
    let mut nodes = NodeSet::new(names.len());
    if text.is_empty() {
        return Ok(nodes);
    }
    let mut place = 0;
    for item in text.split(|byte| *byte == b',') {
        place += 1;
        nodes.put(node_at(names, place, item)?);
    }
    Ok(nodes)
}

/// The node of the name that the whole text is, or the fault of the one item that it is: O(bytes + log n).
pub fn read_name(text: &[u8], names: &Names) -> Result<u32, NameFault>
    ensures value { result ≡ name_read text.now names.now }
    ensures below { IfOk result (λ v. v < length names.now) }
{
    node_at(names, 1, text)
}
