//! Which lemmas a conflict used of late: they stay where others of the same cost go. No answer depends on it.

use crate::entries::entry_or;
use std::alloc::{AllocError, Global};

/// The most room of the table. Ids that are so far apart, or twice so far, share an entry.
const ROOM: usize = 262_144;

/// The least room, where there is any.
const LEAST_ROOM: usize = 1024;

/// Of how many conflicts the uses are late. Found by trials.
const LATE: u32 = 2000;

/// The number of the last conflict that used each id, and of the last of all; or nothing, where uses are not to count.
/// Takes no memory before the first, and as much as the ids want since, for most searches are short.
#[derive(Drop)]
pub struct Uses {
    last: Vec<u32>,
    now: u32,
    is_left: bool,
}

impl Uses {
    /// Nothing was used yet.
    pub fn new(alloc: Global) -> Uses {
        Uses {
            last: Vec::new(alloc),
            now: LATE,
            is_left: false,
        }
    }

    /// Takes note that the lemma of this id, the greatest, came from these. Linear in them, amortised.
    pub fn see(&mut self, id: u64, hints: &[i64]) -> Result<(), AllocError> {
        if self.is_left {
            return Ok(());
        }
        self.make_room(place_of(id))?;
        self.now = self.now.saturating_add(1);
        self.use_now(id);
        for hint in hints {
            self.use_now(hint.unsigned_abs());
        }
        Ok(())
    }

    /// From here on no use counts, and none did before.
    pub fn leave(&mut self) {
        self.last.clear();
        self.is_left = true;
    }

    /// Makes the table reach a place, and twice as far while it may.
    fn make_room(&mut self, place: usize) -> Result<(), AllocError> {
        if place >= self.last.len() {
            let room = place.saturating_mul(2).max(LEAST_ROOM).min(ROOM);
            self.last.resize(room, 0)?;
        }
        Ok(())
    }

    /// Writes down that the conflict of now uses an id.
    fn use_now(&mut self, id: u64) {
        if let Some(last) = self.last.get_mut(place_of(id)) {
            *last = self.now;
        }
    }

    /// Whether a late conflict used the lemma of an id.
    pub fn are_late(&self, id: u64) -> bool {
        let last = entry_or(&self.last, place_of(id), 0);
        self.now.saturating_sub(last) < LATE
    }

    /// The same once more.
    pub fn copy(&self, alloc: Global) -> Result<Uses, AllocError> {
        let mut last = Vec::new(alloc);
        last.extend_from_slice(&self.last)?;
        Ok(Uses {
            last,
            now: self.now,
            is_left: self.is_left,
        })
    }
}

/// The place of an id in the table.
fn place_of(id: u64) -> usize {
    (id % ROOM as u64) as usize
}
