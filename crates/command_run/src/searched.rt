//! What a search is over.
use fbas_core::System;
use name_set::NodeSet;
use request_reading::Search;

/// A search, the part of the system that it is over, and the nodes that are deleted, by their numbers in the part.
#[derive(Clone, Copy)]
pub struct SearchedPart<'a> {
    pub search: &'a Search,
    pub part: &'a System,
    pub faulty: &'a NodeSet,
}
