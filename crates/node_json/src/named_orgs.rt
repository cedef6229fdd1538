//! Organisations as a file writes them.

ghost use Rattle.std.specs.Prelude.{◌≡◌, ◌⊎◌, [], Ok, Err, Some, IfOk, IfErr, OnOk, MatchResult};
ghost use Rattle.std.specs.List.{IsDistinct};
ghost use Rattle.std.specs.Str.{bytes_eq};
ghost use Rattle.node_json.specs.Organisations.{org_id_of, org_validators_of, org_of, orgs_from, orgs_in};
ghost use Rattle.node_json.specs.Reading.{tree_of};
ghost use Rattle.node_json.specs.OrgsView.{named_orgs_view, named_ids, AreApart, IsOneMore};
ghost use Rattle.node_json.specs.Tree.{view, items_view};
ghost use Rattle.node_json.specs.View.{names_view};

use crate::faults::{ConfigFault, OrgFault};
use crate::keys::read_key;
use crate::names::add_name;
use crate::quorum_sets::read_validators;
use crate::tree::{is_object, items_of, member_of, read_tree};
use json::{Scratch, Value};
use std::alloc::Global;
use std::collections::BTreeSet;

// An organisation with names in place of numbers. The names lie in the text that it was read from.
#[derive(Drop)]
pub(crate) struct NamedOrg<'t> {
    pub id: &'t str,
    pub validators: Vec<&'t str>,
}

// The id of element `at`.
fn org_id<'t>(value: &Value<'t>, at: u64) -> Result<&'t str, OrgFault>
    ensures { MatchResult result (λ id. org_id_of at (view value.now) ≡ Ok id.now) (λ e. org_id_of at (view value.now) ≡ Err e) }
{
    if !is_object(value) {
        return Err(OrgFault::BadOrg(at));
    }
    member_of(value, "id")
        .and_then(read_key)
        .ok_or(OrgFault::BadOrg(at))
}

// The validators of element `at`.
fn org_validators<'t>(alloc: Global, value: &Value<'t>, at: u64) -> Result<Vec<&'t str>, OrgFault>
    ensures ok { IfOk result (λ v. org_validators_of at (view value.now) ≡ Ok (names_view v.items)) }
    ensures err { IfErr result (λ e. (e ≡ OrgFault.Memory) ⊎ (org_validators_of at (view value.now) ≡ Err e)) }
{
    let validators = read_validators(alloc, value)?;
    validators.ok_or(OrgFault::BadOrg(at))
}

// Adds element `at`, where `seen` has the ids of those before it. Its own id is put there too.
fn add_item<'t>(
    alloc: Global,
    orgs: &mut Vec<NamedOrg<'t>>,
    seen: &mut BTreeSet<&'t str>,
    item: &Value<'t>,
    at: u64,
) -> Result<(), OrgFault>
    requires { AreApart (names_view seen.old.keys) orgs.old.items }
    ensures ok { OnOk result (IsOneMore (org_of at (named_ids orgs.old.items) (view item.now)) orgs.old.items orgs.new.items) }
    ensures err { IfErr result (λ e. (e ≡ OrgFault.Memory) ⊎ (org_of at (named_ids orgs.old.items) (view item.now) ≡ Err e)) }
    ensures apart { OnOk result (AreApart (names_view seen.new.keys) orgs.new.items) }
{
    let id = org_id(item, at)?;
    if !add_name(seen, id)? {
        return Err(OrgFault::DuplicateOrg(at));
    }
    let validators = org_validators(alloc, item, at)?;
    orgs.push(NamedOrg { id, validators })?;
    Ok(())
}

fn read_items<'t>(alloc: Global, items: &[Value<'t>]) -> Result<Vec<NamedOrg<'t>>, OrgFault>
    ensures ok { IfOk result (λ v. orgs_from 0 [] (items_view items.now) ≡ Ok (named_orgs_view v.items)) }
    ensures err { IfErr result (λ e. (e ≡ OrgFault.Memory) ⊎ (orgs_from 0 [] (items_view items.now) ≡ Err e)) }
    ensures apart { IfOk result (λ v. IsDistinct bytes_eq (named_ids v.items)) }
{
    let mut orgs = Vec::new(alloc);
    let mut seen = BTreeSet::new(alloc);
    for (i, item) in items.iter().enumerate() {
        add_item(alloc, &mut orgs, &mut seen, item, i as u64)?;
    }
    Ok(orgs)
}

// The tree of the bytes.
pub(crate) fn read_org_tree<'t>(
    alloc: Global,
    bytes: &'t [u8],
    scratch: &'t mut Scratch,
) -> Result<Value<'t>, OrgFault>
    ensures ok { IfOk result (λ v. tree_of bytes.now ≡ Some (view v)) }
    ensures err { IfErr result (λ e. (e ≡ OrgFault.Memory) ⊎ ((e ≡ OrgFault.NotJson) × (tree_of bytes.now ≡ None))) }
{
    match read_tree(alloc, bytes, scratch) {
        Ok(tree) => Ok(tree),
        Err(ConfigFault::NotJson) => Err(OrgFault::NotJson),
        Err(_) => Err(OrgFault::Memory),
    }
}

// The organisations of a tree, or its first fault. Their ids are distinct.
pub(crate) fn read_named_orgs<'t>(
    alloc: Global,
    tree: &Value<'t>,
) -> Result<Vec<NamedOrg<'t>>, OrgFault>
    ensures ok { IfOk result (λ orgs. orgs_in (view tree.now) ≡ Ok (named_orgs_view orgs.items)) }
    ensures err { IfErr result (λ e. (e ≡ OrgFault.Memory) ⊎ (orgs_in (view tree.now) ≡ Err e)) }
    ensures apart { IfOk result (λ orgs. IsDistinct bytes_eq (named_ids orgs.items)) }
{
    let Some(items) = items_of(tree) else {
        return Err(OrgFault::NotOrgs);
    };
    read_items(alloc, items)
}
