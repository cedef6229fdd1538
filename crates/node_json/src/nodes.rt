//! The declared nodes of a configuration, by name.

ghost use Rattle.std.specs.Prelude.{◌≡◌, ◌⊎◌, [], ◌∷◌, Ok, Err, Some, None, IfOk, IfErr, MatchResult, option_map};
ghost use Rattle.node_json.specs.Configuration.{names_if_any, all_names};
ghost use Rattle.node_json.specs.NamesInOrder.{with_names};
ghost use Rattle.node_json.specs.Reading.{node_key_of, node_set_of, node_of, nodes_from, nodes_in};
ghost use Rattle.node_json.specs.Tree.{view, items_view};
ghost use Rattle.node_json.specs.View.{names_view, set_view, node_view, nodes_view};

use crate::faults::ConfigFault;
use crate::keys::read_key;
use crate::names::add_name;
use crate::quorum_sets::{NamedSet, member, read_set};
use crate::seen_names::SeenNames;
use crate::tree::{is_object, items_of, member_of};
use fbas_model::MOST_LEVELS;
use json::Value;
use std::alloc::Global;
use std::collections::BTreeSet;

// A declared node. The names lie in the text that it was read from.
#[derive(Drop)]
pub(crate) struct NamedNode<'t> {
    pub key: &'t str,
    pub quorum_set: Option<NamedSet<'t>>,
}

// The key of element `at`.
fn node_key<'t>(value: &Value<'t>, at: u64) -> Result<&'t str, ConfigFault>
    ensures { MatchResult result (λ key. node_key_of at (view value.now) ≡ Ok key.now) (λ e. node_key_of at (view value.now) ≡ Err e) }
{
    if !is_object(value) {
        return Err(ConfigFault::NotNode(at));
    }
    member_of(value, "publicKey")
        .and_then(read_key)
        .ok_or(ConfigFault::BadKey(at))
}

// The quorum set of element `at`, if it has one.
fn node_set<'t>(
    alloc: Global,
    names: &mut SeenNames<'t>,
    value: &Value<'t>,
    at: u64,
) -> Result<Option<NamedSet<'t>>, ConfigFault>
    ensures ok { IfOk result (λ o. node_set_of at (view value.now) ≡ Ok (option_map set_view o)) }
    ensures err { IfErr result (λ e. (e ≡ ConfigFault.Memory) ⊎ (node_set_of at (view value.now) ≡ Err e)) }
    ensures gathered { IfOk result (λ o. names.new ≡ with_names names.old (names_if_any (option_map set_view o))) }
{
    match member(value, "quorumSet") {
        None => Ok(None),
        Some(set) => Ok(Some(read_set(alloc, names, set, at, MOST_LEVELS)?)),
    }
}

// Element `at`, where `keys` has those of the elements before it. Its own key is put there too.
fn read_item<'t>(
    alloc: Global,
    names: &mut SeenNames<'t>,
    keys: &mut BTreeSet<&'t str>,
    item: &Value<'t>,
    at: u64,
) -> Result<NamedNode<'t>, ConfigFault>
    ensures ok { IfOk result (λ n. node_of at (names_view keys.old.keys) (view item.now) ≡ Ok (node_view n)) }
    ensures err { IfErr result (λ e. (e ≡ ConfigFault.Memory) ⊎ (node_of at (names_view keys.old.keys) (view item.now) ≡ Err e)) }
    ensures seen { IfOk result (λ n. names_view keys.new.keys ≡ with_names (names_view keys.old.keys) (n.key.now ∷ [])) }
    ensures gathered { IfOk result (λ n. names.new ≡ with_names names.old (n.key.now ∷ names_if_any (option_map set_view n.quorum_set))) }
{
    let key = node_key(item, at)?;
    if !add_name(keys, key)? {
        return Err(ConfigFault::Duplicate(at));
    }
    names.add(key)?;
    let quorum_set = node_set(alloc, names, item, at)?;
    Ok(NamedNode { key, quorum_set })
}

fn read_items<'t>(
    alloc: Global,
    names: &mut SeenNames<'t>,
    items: &[Value<'t>],
) -> Result<Vec<NamedNode<'t>>, ConfigFault>
    ensures ok { IfOk result (λ v. nodes_from 0 [] (items_view items.now) ≡ Ok (nodes_view v.items)) }
    ensures err { IfErr result (λ e. (e ≡ ConfigFault.Memory) ⊎ (nodes_from 0 [] (items_view items.now) ≡ Err e)) }
    ensures gathered { IfOk result (λ v. names.new ≡ with_names names.old (all_names (nodes_view v.items))) }
{
    let mut nodes = Vec::new(alloc);
    let mut keys = BTreeSet::new(alloc);
    for (i, item) in items.iter().enumerate() {
        nodes.push(read_item(alloc, names, &mut keys, item, i as u64)?)?;
    }
    Ok(nodes)
}

// The declared nodes of a tree, or its first fault. Every name that is declared or stands in a quorum set is gathered.
pub(crate) fn read_nodes<'t>(
    alloc: Global,
    names: &mut SeenNames<'t>,
    tree: &Value<'t>,
) -> Result<Vec<NamedNode<'t>>, ConfigFault>
    ensures ok { IfOk result (λ nodes. nodes_in (view tree.now) ≡ Ok (nodes_view nodes.items)) }
    ensures err { IfErr result (λ e. (e ≡ ConfigFault.Memory) ⊎ (nodes_in (view tree.now) ≡ Err e)) }
    ensures gathered { IfOk result (λ nodes. names.new ≡ with_names names.old (all_names (nodes_view nodes.items))) }
{
    let Some(items) = items_of(tree) else {
        return Err(ConfigFault::NotNodes);
    };
    read_items(alloc, names, items)
}
