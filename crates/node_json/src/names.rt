//! The names of the nodes.

ghost use Rattle.std.specs.Prelude.{◌≡◌, ◌<◌, ◌^◌, [], ◌∷◌, not, length, IfOk, OnOk};
ghost use Rattle.fbas_model.specs.Names.{AreNamesOf, is_among};
ghost use Rattle.node_json.specs.NamesInOrder.{with_names};
ghost use Rattle.node_json.specs.View.{names_view};

use crate::seen_names::SeenNames;
use name_set::Names;
use std::alloc::{AllocError, Global};
use std::collections::BTreeSet;

// Adds the name, and says whether it is new there.
pub(crate) fn add_name<'v>(names: &mut BTreeSet<&'v str>, name: &'v str) -> Result<bool, AllocError>
    ensures new { IfOk result (λ new. new ≡ not (is_among name.now (names_view names.old.keys))) }
    ensures added { OnOk result (names_view names.new.keys ≡ with_names (names_view names.old.keys) (name.now ∷ [])) }
{
    Ok(names.insert(name)?)
}

// Adds each name of the list.
pub(crate) fn add_all<'v>(names: &mut SeenNames<'v>, list: &[&'v str]) -> Result<(), AllocError>
    ensures { OnOk result (names.new ≡ with_names names.old (names_view list.now)) }
{
    for name in list {
        names.add(*name)?;
    }
    Ok(())
}

// The names as the nodes have them.
pub(crate) fn owned_names(alloc: Global, names: BTreeSet<&str>) -> Result<Names, AllocError>
    requires { length names.keys < 2 ^ 32 }
    ensures { IfOk result (λ owned. AreNamesOf (names_view names.entry.keys) owned) }
{
    let mut list = Vec::new(alloc);
    for name in names {
        list.push(name.as_bytes().to_vec(alloc)?)?;
    }
    Names::of(list)
}
