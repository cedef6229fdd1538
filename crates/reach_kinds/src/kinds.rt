//! The kinds of bodies, in rows: by which word a certificate names each, whole and in part.
ghost use Rattle.std.specs.Prelude.{◌≡◌};
ghost use Rattle.std.specs.Str.{bytes_eq};
ghost use Rattle.reach_kinds.specs.Kinds.{kind_word, titles, title_in};

use enumeration_journal::{ListKind, Listed};

/// What a body shows.
#[derive(Clone, Copy)]
pub enum ReachKind {
    /// All minimal sets of nodes, or where ever smaller quorums are sought a smallest one.
    Nodes(Listed),
    /// All minimal blocking sets of groups.
    Groups,
}

/// What the kind line of a body says: what it shows, and whether it is whole.
#[derive(Clone, Copy)]
pub struct ReachTitle {
    pub shows: ReachKind,
    pub kind: ListKind,
}

/// The word of a kind, whole or in part.
pub fn kind_word(shows: ReachKind, kind: ListKind) -> &'static str
    ensures { result.now ≡ kind_word shows kind }
{
    match shows {
        ReachKind::Nodes(sought) => nodes_word(sought, kind),
        ReachKind::Groups => match kind {
            ListKind::Whole => "org-blocking",
            ListKind::Partial => "partial-org-blocking",
        },
    }
}

fn nodes_word(sought: Listed, kind: ListKind) -> &'static str
    ensures { result.now ≡ kind_word (ReachKind.Nodes sought) kind }
{
    match (sought, kind) {
        (Listed::Blocking, ListKind::Whole) => "blocking",
        (Listed::Blocking, ListKind::Partial) => "partial-blocking",
        (Listed::Quorum, ListKind::Whole) => "quorums",
        (Listed::Quorum, ListKind::Partial) => "partial-quorums",
        (Listed::Smaller, ListKind::Whole) => "least",
        (Listed::Smaller, ListKind::Partial) => "partial-least",
    }
}

/// Each kind, whole and in part.
fn all_titles<'a>() -> &'a [ReachTitle]
    ensures { result.now ≡ titles }
{
    &[
        ReachTitle {
            shows: ReachKind::Nodes(Listed::Blocking),
            kind: ListKind::Whole,
        },
        ReachTitle {
            shows: ReachKind::Nodes(Listed::Blocking),
            kind: ListKind::Partial,
        },
        ReachTitle {
            shows: ReachKind::Nodes(Listed::Quorum),
            kind: ListKind::Whole,
        },
        ReachTitle {
            shows: ReachKind::Nodes(Listed::Quorum),
            kind: ListKind::Partial,
        },
        ReachTitle {
            shows: ReachKind::Nodes(Listed::Smaller),
            kind: ListKind::Whole,
        },
        ReachTitle {
            shows: ReachKind::Nodes(Listed::Smaller),
            kind: ListKind::Partial,
        },
        ReachTitle {
            shows: ReachKind::Groups,
            kind: ListKind::Whole,
        },
        ReachTitle {
            shows: ReachKind::Groups,
            kind: ListKind::Partial,
        },
    ]
}

/// Whether the word names this kind.
fn is_word_of(title: ReachTitle, word: &[u8]) -> bool
    ensures { result ≡ bytes_eq word.now (kind_word title.shows title.kind) }
{
    word == kind_word(title.shows, title.kind).as_bytes()
}

/// The kind that a word names, if it names one.
pub fn title_in(word: &[u8]) -> Option<ReachTitle>
    ensures { result ≡ title_in word.now }
{
    let titles = all_titles();
    for title in titles {
        if is_word_of(*title, word) {
            return Some(*title);
        }
    }
    None
}
