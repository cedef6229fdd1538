//! Where the entry of an id is looked for first.
use crate::index::Entry;
use std::alloc::Global;

/// A place for each id, at which its entry is looked for first. It is a guess: who looks there compares the ids, and
/// searches by halves where they differ. So a wrong guess costs time, and no clause speaks of guesses.
///
/// While ids follow one another from the first on, an id's place is its distance from the first, and no memory is needed.
/// From the first gap on, or where clauses were taken out between others, the places stand in a table, at the id modulo
/// the table's length, a power of two that is two to four times the length of the index: ids that follow one another never
/// meet there. Where two do, the greater one stands. Where memory for the table runs out there is none.
#[derive(Drop)]
pub struct Guesses {
    places: Vec<u32>,
}

/// A place that is none.
const NOWHERE: u32 = u32::MAX;

/// More entries than any memory has room for.
const MOST_ENTRIES: usize = 1 << 60;

impl Guesses {
    /// No table. Takes no memory.
    pub fn new(alloc: Global) -> Guesses {
        Guesses {
            places: Vec::new(alloc),
        }
    }

    /// Where to look first. O(1).
    pub fn place(&self, entries: &[Entry], id: u64) -> usize {
        if let Some(place) = self.places.get(slot(id, self.places.len())) {
            return *place as usize;
        }
        match entries.first() {
            Some(first) => id.saturating_sub(first.id) as usize,
            None => 0,
        }
    }

    /// Sees the last entry, which is new. O(1), amortised.
    pub fn see_last(&mut self, entries: &[Entry]) {
        let slots = self.places.len();
        let Some(last) = entries.last() else {
            return;
        };
        if slots / 2 < entries.len() {
            if slots > 0 || !are_dense(entries) {
                self.see_all(entries);
            }
        } else {
            set_place(&mut self.places, last.id, entries.len() - 1);
        }
    }

    /// Sees all entries anew. O(entries).
    pub fn see_all(&mut self, entries: &[Entry]) {
        self.places.clear();
        let slots = (entries.len().min(MOST_ENTRIES) * 2).next_power_of_two();
        if are_dense(entries) || self.places.resize(slots, NOWHERE).is_err() {
            return;
        }
        for (place, entry) in entries.iter().enumerate() {
            set_place(&mut self.places, entry.id, place);
        }
    }
}

/// Whether the ids follow one another: as the entries' ids rise, the first and the last tell.
fn are_dense(entries: &[Entry]) -> bool {
    match (entries.first(), entries.last()) {
        (Some(first), Some(last)) => { last.id.saturating_sub(first.id) < entries.len() as u64 }
        _ => true,
    }
}

/// The place as the table keeps it.
fn place_number(place: usize) -> u32 {
    u32::try_from(place).unwrap_or(NOWHERE)
}

/// The slot of an id in a table of this length. With no slot there is none: the length less 1 wraps.
fn slot(id: u64, slots: usize) -> usize {
    id as usize & slots.wrapping_sub(1)
}

/// Writes the place of an id into the table.
fn set_place(places: &mut [u32], id: u64, place: usize) {
    let slot = slot(id, places.len());
    if let Some(there) = places.get_mut(slot) {
        *there = place_number(place);
    }
}
