//! The distinct names of a configuration, as they are gathered.
ghost use Rattle.std.specs.Prelude.{◌≡◌, ◌<◌, [], ◌∷◌, IfOk, OnOk, IfSome, slice_get};
ghost use Rattle.node_json.specs.NamesInOrder.{with_names};
ghost use Rattle.node_json.specs.View.{names_view};

use crate::slots::{slot_of, slots_for};
use std::alloc::{AllocError, Global};
use std::collections::BTreeSet;
use std::marker::Model;

/// Distinct names in order. Beside them each slot has the last of its names that was looked for among them, so that a name that
/// is seen again and again is found at once.
#[derive(Drop)]
pub(crate) struct SeenNames<'v> {
    ordered: BTreeSet<&'v str>,
    slots: Vec<Option<&'v str>>,
}

impl<'v> Model for SeenNames<'v> {
    ghost use Rattle.std.specs.Prelude.{List};
    ghost use Rattle.fbas_model.specs.Names.{Name};
    ghost use Rattle.node_json.specs.SeenNames.{AreSeen};
    ghost use Rattle.node_json.specs.View.{names_view};

    ghost Value = { List Name };

    ghost view = { λ s. names_view s.ordered.keys };

    ghost invariant = { λ s. AreSeen (names_view s.ordered.keys) s.slots.items };
}

impl<'v> SeenNames<'v> {
    /// No names yet. The text's length in bytes says only how large the table of slots is.
    pub(crate) fn new(alloc: Global, text: usize) -> Result<SeenNames<'v>, AllocError>
        ensures { IfOk result (λ names. names ≡ []) }
    {
        Ok(SeenNames {
            ordered: BTreeSet::new(alloc),
            slots: vec![in alloc; None; slots_for(text)]?,
        })
    }

    /// One name more: O(1) where it stands in its slot, else O(log n) comparisons.
    pub(crate) fn add(&mut self, name: &'v str) -> Result<(), AllocError>
        ensures { OnOk result (self.new ≡ with_names self.old (name.now ∷ [])) }
    {
        let slot = slot_of(name, self.slots.len());
        if let Some(seen) = self.slots[slot] {
            if seen == name {
                return Ok(());
            }
        }
        self.ordered.insert(name)?;
        self.slots[slot] = Some(name);
        Ok(())
    }

    /// The names.
    pub(crate) fn in_order(self) -> BTreeSet<&'v str>
        ensures { names_view result.keys ≡ self.entry }
    {
        let SeenNames { ordered, slots: _ } = self;
        ordered
    }
}
