//! The keys of nodes.

ghost use Rattle.std.specs.Prelude.{◌≡◌, ◌++◌, IfOk, option_map};
ghost use Rattle.node_json.specs.Reading.{key_of, keys_in};
ghost use Rattle.node_json.specs.Tree.{view, items_view};
ghost use Rattle.node_json.specs.View.{names_view};

use crate::tree::text_of;
use json::Value;
use name_set::is_key;
use std::alloc::{AllocError, Global};

// The key that a value is.
pub(crate) fn read_key<'t>(value: &Value<'t>) -> Option<&'t str>
    ensures { option_map (λ s. s.now) result ≡ key_of (view value.now) }
{
    let text = text_of(value)?;
    if is_key(text.as_bytes()) {
        Some(text)
    } else {
        None
    }
}

// The keys that an array's items are.
pub(crate) fn read_keys<'t>(
    alloc: Global,
    items: &[Value<'t>],
) -> Result<Option<Vec<&'t str>>, AllocError>
    ensures { IfOk result (λ keys. option_map (λ v. names_view v.items) keys ≡ keys_in (items_view items.now)) }
{
    let mut keys = Vec::with_capacity(alloc, items.len())?;
    for item in items {
        let Some(key) = read_key(item) else {
            return Ok(None);
        };
        keys.push(key)?;
    }
    Ok(Some(keys))
}
