//! Entries of the tables that guide a search, where one may be missing.

/// The entry at a place, another value where there is none.
pub fn entry_or<T: Copy>(entries: &[T], place: usize, none: T) -> T {
    match entries.get(place) {
        Some(entry) => *entry,
        None => none,
    }
}
