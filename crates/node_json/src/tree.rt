//! The tree of a JSON text, whose strings lie in the text, but those with escapes in the scratch.
ghost use Rattle.std.specs.Prelude.{◌≡◌, ◌⊎◌, Err, None, Some, is_some, length, option_map, IfErr, IfOk};
ghost use Rattle.json.specs.Value.{value_view, items_view as json_items, members_view as json_members};
ghost use Rattle.serde_json.specs.Find.{as_array, as_object, as_str, get};
ghost use Rattle.serde_json.specs.Read.{read};
ghost use Rattle.node_json.specs.Reading.{tree_of};
ghost use Rattle.node_json.specs.Tree.{view, items_view, is_in_range, items_in_range, members_in_range};

use crate::faults::ConfigFault;
use crate::json_numbers::number_in_range;
use json::{Error, Reader, Scratch, Value};
use std::alloc::Global;
use std::str;

/// How deep arrays and objects may nest.
const MOST_NESTED: usize = 127;

/// The tree of the bytes: linear in them.
pub(crate) fn read_tree<'t>(
    alloc: Global,
    bytes: &'t [u8],
    scratch: &'t mut Scratch,
) -> Result<Value<'t>, ConfigFault>
    ensures ok { IfOk result (λ v. tree_of bytes.now ≡ Some (view v)) }
    ensures err { IfErr result (λ e. (e ≡ ConfigFault.Memory) ⊎ ((e ≡ ConfigFault.NotJson) × (tree_of bytes.now ≡ None))) }
{
    let Ok(text) = str::from_utf8(bytes) else {
        return Err(ConfigFault::NotJson);
    };
    read_text(alloc, text, scratch)
}

fn read_text<'t>(
    alloc: Global,
    text: &'t str,
    scratch: &'t mut Scratch,
) -> Result<Value<'t>, ConfigFault>
    ensures ok { IfOk result (λ v. read text.now ≡ Some (view v)) }
    ensures err { IfErr result (λ e. (e ≡ ConfigFault.Memory) ⊎ ((e ≡ ConfigFault.NotJson) × (read text.now ≡ None))) }
{
    let Ok(mut reader) = Reader::new(text, scratch) else {
        return Err(ConfigFault::Memory);
    };
    let tree = match Value::read(alloc, &mut reader, MOST_NESTED) {
        Ok(tree) => tree,
        Err(Error::Invalid) => return Err(ConfigFault::NotJson),
        Err(_) => return Err(ConfigFault::Memory),
    };
    if reader.next().is_some() || !in_range(&tree) {
        return Err(ConfigFault::NotJson);
    }
    Ok(tree)
}

// Whether each number of the tree is in range.
#[cycle(range)]
fn in_range(tree: &Value) -> bool
    ensures { result ≡ is_in_range (value_view tree.now) }
{
    match tree {
        Value::Number(text) => number_in_range(*text),
        Value::Array(items) => all_in_range(items),
        Value::Object(members) => each_in_range(members),
        _ => true,
    }
}

#[cycle(range)]
fn all_in_range(items: &Vec<Value>) -> bool
    ensures { result ≡ items_in_range (json_items items.now.items) }
{
    for item in items {
        if !in_range(item) {
            return false;
        }
    }
    true
}

#[cycle(range)]
fn each_in_range(members: &Vec<(&str, Value)>) -> bool
    ensures { result ≡ members_in_range (json_members members.now.items) }
{
    for member in members {
        if !in_range(&member.1) {
            return false;
        }
    }
    true
}

/// The value of the last member of a name, where the tree is an object.
pub(crate) fn member_of<'v, 't>(tree: &'v Value<'t>, name: &str) -> Option<&'v Value<'t>>
    ensures { option_map (λ v. view v.now) result ≡ get name.now (view tree.now) }
{
    tree.get(name)
}

/// Whether the tree is an object.
pub(crate) fn is_object(tree: &Value) -> bool
    ensures { result ≡ is_some (as_object (view tree.now)) }
{
    matches!(tree, Value::Object(_))
}

/// The items, where the tree is an array.
pub(crate) fn items_of<'v, 't>(tree: &'v Value<'t>) -> Option<&'v Vec<Value<'t>>>
    ensures { option_map (λ v. items_view v.now.items) result ≡ as_array (view tree.now) }
{
    if let Value::Array(items) = tree {
        Some(items)
    } else {
        None
    }
}

/// The text, where the tree is a string.
pub(crate) fn text_of<'t>(tree: &Value<'t>) -> Option<&'t str>
    ensures { option_map (λ s. s.now) result ≡ as_str (view tree.now) }
{
    tree.as_str()
}
