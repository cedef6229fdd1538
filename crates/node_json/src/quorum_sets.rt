//! Quorum sets as a configuration writes them.

ghost use Rattle.std.specs.Prelude.{◌≡◌, ◌⊎◌, Ok, Err, IfOk, IfErr, codes, option_map};
ghost use Rattle.serde_json.specs.Find.{get};
ghost use Rattle.node_json.specs.Configuration.{names_in_set, names_in_sets};
ghost use Rattle.node_json.specs.NamesInOrder.{with_names};
ghost use Rattle.node_json.specs.Reading.{or_missing, threshold_of, validators_of, inner_by, set_of, sets_by};
ghost use Rattle.node_json.specs.Tree.{view, items_view};
ghost use Rattle.node_json.specs.View.{names_view, set_view, sets_view};

use crate::faults::{ConfigFault, SetFault};
use crate::json_numbers::whole_number;
use crate::keys::read_keys;
use crate::names::add_all;
use crate::seen_names::SeenNames;
use crate::tree::{is_object, member_of};
use json::Value;
use std::alloc::{AllocError, Global};

// A quorum set with names in place of numbers. The names lie in the text that it was read from.
#[derive(Drop)]
pub(crate) struct NamedSet<'t> {
    pub threshold: u64,
    pub validators: Vec<&'t str>,
    pub inner: Vec<NamedSet<'t>>,
}

// The value of a member that is there and not `null`.
pub(crate) fn member<'v, 't>(members: &'v Value<'t>, name: &str) -> Option<&'v Value<'t>>
    ensures { option_map (λ v. view v.now) result ≡ or_missing (get name.now (view members.now)) }
{
    match member_of(members, name) {
        None | Some(Value::Null) => None,
        Some(value) => Some(value),
    }
}

fn read_threshold(value: &Value) -> Option<u64>
    ensures { result ≡ threshold_of (view value.now) }
{
    let number = member_of(value, "threshold")?.as_number()?;
    whole_number(number)
}

// The keys of the member `validators`, which may be missing.
pub(crate) fn read_validators<'t>(
    alloc: Global,
    value: &Value<'t>,
) -> Result<Option<Vec<&'t str>>, AllocError>
    ensures { IfOk result (λ keys. option_map (λ v. names_view v.items) keys ≡ validators_of (view value.now)) }
{
    match member(value, "validators") {
        None => Ok(Some(Vec::new(alloc))),
        Some(Value::Array(items)) => read_keys(alloc, items),
        Some(_) => Ok(None),
    }
}

// The quorum set of element `at`, where `levels` more levels may nest. Its names are gathered while they are at hand.
#[cycle(sets)]
pub(crate) fn read_set<'t>(
    alloc: Global,
    names: &mut SeenNames<'t>,
    value: &Value<'t>,
    at: u64,
    levels: u64,
) -> Result<NamedSet<'t>, ConfigFault>
    ensures ok { IfOk result (λ s. set_of at levels (view value.now) ≡ Ok (set_view s)) }
    ensures err { IfErr result (λ e. (e ≡ ConfigFault.Memory) ⊎ (set_of at levels (view value.now) ≡ Err e)) }
    ensures gathered { IfOk result (λ s. names.new ≡ with_names names.old (names_in_set (set_view s))) }
{
    if levels == 0 {
        return Err(ConfigFault::TooDeep(at));
    }
    if !is_object(value) {
        return Err(ConfigFault::BadQuorumSet(at, SetFault::Shape));
    }
    let Some(threshold) = read_threshold(value) else {
        return Err(ConfigFault::BadQuorumSet(at, SetFault::Threshold));
    };
    let Some(validators) = read_validators(alloc, value)? else {
        return Err(ConfigFault::BadQuorumSet(at, SetFault::Validators));
    };
    add_all(names, &validators)?;
    let inner = read_inner(alloc, names, value, at, levels - 1)?;
    Ok(NamedSet {
        threshold,
        validators,
        inner,
    })
}

// The sets in a quorum set of element `at`, where `levels` more levels may nest.
#[cycle(sets)]
fn read_inner<'t>(
    alloc: Global,
    names: &mut SeenNames<'t>,
    value: &Value<'t>,
    at: u64,
    levels: u64,
) -> Result<Vec<NamedSet<'t>>, ConfigFault>
    ensures ok { IfOk result (λ v. inner_by (set_of at levels) at (view value.now) ≡ Ok (sets_view v.items)) }
    ensures err { IfErr result (λ e. (e ≡ ConfigFault.Memory) ⊎ (inner_by (set_of at levels) at (view value.now) ≡ Err e)) }
    ensures gathered { IfOk result (λ v. names.new ≡ with_names names.old (names_in_sets (sets_view v.items))) }
{
    match member(value, "innerQuorumSets") {
        None => Ok(Vec::new(alloc)),
        Some(Value::Array(items)) => read_sets(alloc, names, items, at, levels),
        Some(_) => Err(ConfigFault::BadQuorumSet(at, SetFault::Inner)),
    }
}

#[cycle(sets)]
fn read_sets<'t>(
    alloc: Global,
    names: &mut SeenNames<'t>,
    items: &Vec<Value<'t>>,
    at: u64,
    levels: u64,
) -> Result<Vec<NamedSet<'t>>, ConfigFault>
    ensures ok { IfOk result (λ v. sets_by (set_of at levels) (items_view items.now.items) ≡ Ok (sets_view v.items)) }
    ensures err { IfErr result (λ e. (e ≡ ConfigFault.Memory) ⊎ (sets_by (set_of at levels) (items_view items.now.items) ≡ Err e)) }
    ensures gathered { IfOk result (λ v. names.new ≡ with_names names.old (names_in_sets (sets_view v.items))) }
{
    let mut sets = Vec::with_capacity(alloc, items.len())?;
    for item in items {
        sets.push(read_set(alloc, names, item, at, levels)?)?;
    }
    Ok(sets)
}
