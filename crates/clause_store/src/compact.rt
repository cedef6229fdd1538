//! The room of removed clauses, taken away.
ghost use Rattle.std.specs.Prelude.{◌≡◌, ℕ, ◌≤◌, length, take, All};
ghost use Rattle.std.specs.List.{copy_within};
ghost use Rattle.clause_store.specs.Entries.{AreApart};
ghost use Rattle.clause_store.specs.Index.{IsWithin, IsIndex};
ghost use Rattle.clause_store.specs.Shown.{held_in};
ghost use Rattle.clause_store.specs.Packed.{moved, packed, literals_of};

use crate::guess::Guesses;
use crate::index::Entry;
use lrat_model::Lit;

/// Moves the literals of a clause that is held down to the place `free`, and gives the entry that they have there. O(its
/// literals).
fn move_down(arena: &mut [Lit], entry: Entry, free: usize) -> Entry
    requires within { IsWithin (length arena.old) entry }
    requires below { free ≤ entry.start }
    ensures entry { result ≡ moved free entry }
    ensures arena { arena.new ≡ copy_within arena.old entry.start entry.end free }
{
    arena.copy_within(entry.start..entry.end, free);
    Entry {
        id: entry.id,
        start: free,
        end: free + (entry.end - entry.start),
        is_held: true,
    }
}

/// Moves the entries that are held to the front, and their literals to the front of the arena, each in order. Gives how many
/// entries and how many literals these are. O(entries and the literals that are held).
fn move_held(arena: &mut [Lit], entries: &mut [Entry]) -> (usize, usize)
    requires within { All (IsWithin (length arena.old)) entries.old }
    requires apart { AreApart entries.old }
    ensures entries { take result.0 entries.new ≡ packed 0 entries.old }
    ensures literals { take result.1 arena.new ≡ literals_of arena.old entries.old }
{
    let mut kept = 0;
    let mut free = 0;
    for i in 0..entries.len() {
        let entry = entries[i];
        if entry.is_held {
            let there = move_down(arena, entry, free);
            entries[kept] = there;
            kept += 1;
            free = there.end;
        }
    }
    (kept, free)
}

/// Takes the entries and the literals of removed clauses away. O(entries and literals).
fn compact(arena: &mut Vec<Lit>, entries: &mut Vec<Entry>)
    requires within { All (IsWithin (length arena.old.items)) entries.old.items }
    requires apart { AreApart entries.old.items }
    ensures entries { entries.new.items ≡ packed 0 entries.old.items }
    ensures literals { arena.new.items ≡ literals_of arena.old.items entries.old.items }
{
    let (kept, literals) = move_held(arena.as_mut_slice(), entries.as_mut_slice());
    entries.truncate(kept);
    arena.truncate(literals);
}

/// Counts room that was removed, and takes it all away once it is more than half of the whole: so each removed literal
/// and entry pays for one that is moved.
pub fn reclaim(
    arena: &mut Vec<Lit>,
    entries: &mut Vec<Entry>,
    guesses: &mut Guesses,
    removed: &mut usize,
    room: usize,
)
    requires { (last : ℕ) × IsIndex (length arena.old.items) entries.old.items last }
    ensures held { held_in arena.new.items entries.new.items ≡ held_in arena.old.items entries.old.items }
    ensures index { (last : ℕ) → IsIndex (length arena.old.items) entries.old.items last → IsIndex (length arena.new.items) entries.new.items last }
{
    *removed = removed.saturating_add(room);
    if *removed > arena.len() / 2 + entries.len() / 2 {
        compact(arena, entries);
        guesses.see_all(entries);
        *removed = 0;
    }
}
