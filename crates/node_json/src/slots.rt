//! Tables in which a name is looked for first, before it is searched.
//!
//! A name has one place in such a table, by its hash. Whoever looks there compares the names, and searches where they differ:
//! strangers choose the names, and the hash has no secret, so names that meet in one slot cost a search, and nothing else.
ghost use Rattle.std.specs.Prelude.{◌≡◌, ◌<◌, length, unwrap_or, IfOk};
ghost use Rattle.node_json.specs.Configuration.{number_of};

use name_set::Names;
use std::alloc::{AllocError, Global};
use std::hash::{FoldHasher, Hasher};

/// The most slots that a table has: four for each name that a system may have, so that few of them meet in one.
const MOST_SLOTS: usize = 65_536;

/// The fewest slots that a table has.
const FEWEST_SLOTS: usize = 256;

/// How many bytes of a text bring one slot. A name takes four at least, with its quotes and comma, but most stand there again
/// and again.
const BYTES_PER_SLOT: usize = 16;

/// How many slots a table has for the names of a text of this many bytes. They go by the text since zeroing two tables of the
/// most slots, 1.8 MB, took a quarter of the time of a small configuration.
pub(crate) fn slots_for(text: usize) -> usize
    ensures { 0 < result }
{
    (text / BYTES_PER_SLOT).clamp(FEWEST_SLOTS, MOST_SLOTS)
}

/// The slot of a name among this many: O(its length).
pub(crate) fn slot_of(name: &str, slots: usize) -> usize
    ensures { 0 < slots → result < slots }
{
    let mut hasher = FoldHasher::default();
    hasher.write(name.as_bytes());
    scaled(hasher.finish(), slots)
}

// As far into the slots as the hash is into its 2 ^ 64 values: a product, since a remainder would cost each name a division.
fn scaled(hash: u64, slots: usize) -> usize
    ensures { 0 < slots → result < slots }
{
    ((hash as u128 * slots as u128) >> 64) as usize
}

/// For each slot the number of the name that was last searched from there.
#[derive(Drop)]
pub(crate) struct Guesses {
    slots: Vec<u32>,
}

impl Guesses {
    /// No name yet. The text's length in bytes says only how large the table is.
    pub(crate) fn new(alloc: Global, text: usize) -> Result<Guesses, AllocError> {
        Ok(Guesses {
            slots: vec![in alloc; 0; slots_for(text)]?,
        })
    }

    /// The number of a name: O(1) where it was the last that was searched from its slot, else O(log n) comparisons.
    pub(crate) fn number(&mut self, names: &Names, name: &str) -> u32
        ensures { result ≡ number_of names.now name.now }
    {
        let slot = slot_of(name, self.slots.len());
        let guess = self.slots.get(slot).copied().unwrap_or(0);
        let number = names.find_from(guess, name.as_bytes()).unwrap_or(0);
        if guess != number {
            self.note(slot, number);
        }
        number
    }

    fn note(&mut self, slot: usize, number: u32) {
        if let Some(guess) = self.slots.get_mut(slot) {
            *guess = number;
        }
    }
}
