//! Words, numbers and names, one after another.
ghost use Rattle.std.specs.Prelude.{◌≡◌, ◌<◌, ◌++◌, ◌∷◌, [], length, decimal, codes, option_map, All, OnOk, IfOk};
ghost use Rattle.reach_kinds.specs.Shown.{ReachedHasPlaces};
ghost use Rattle.certificate_file.specs.Meaning.{HasPlaces, ConclusionHasPlaces};
ghost use Rattle.printed_lines.specs.Lines.{numbered, worded, list, listed, line, word_if_any, accepted as spec_accepted, accepted_word, accepted_body, accepted_kind, verified_lines as spec_verified_lines, set_lines, body_lines, answer_lines, with_list as spec_with_list, counts as spec_counts, export_head as spec_export_head, export_comments as spec_export_comments, with_pair as spec_with_pair, with_sets as spec_with_sets, smallest as spec_smallest, trial_size as spec_trial_size, counted as spec_counted, available_lines, edit_lines, name_at as spec_name_at};

use crate::groups::push_group_sets;
use certificate_file::{Accepted, Aim, Conclusion, Header, Pair, aim_word};
use enumeration_journal::{ListKind, Listed};
use fbas_core::System;
use itoa::Buffer;
use name_set::{Names, NodeSet};
use reach_kinds::{ReachKind, Reached, kind_word};
use std::alloc::{AllocError, Global};

// Adds a word.
pub fn push_word(text: &mut Vec<u8>, word: &str) -> Result<(), AllocError>
    ensures { OnOk result (text.new.items ≡ text.old.items ++ word.now) }
{
    text.extend_from_slice(word.as_bytes())
}

// Adds a space and bytes.
pub fn push_behind(text: &mut Vec<u8>, bytes: &[u8]) -> Result<(), AllocError>
    ensures { OnOk result (text.new.items ≡ worded text.old.items bytes.now) }
{
    text.push(b' ')?;
    text.extend_from_slice(bytes)
}

// Adds a number.
pub fn push_decimal(text: &mut Vec<u8>, number: u64) -> Result<(), AllocError>
    ensures { OnOk result (text.new.items ≡ text.old.items ++ decimal number) }
{
    let mut buffer = Buffer::new();
    text.extend_from_slice(buffer.format(number).as_bytes())
}

// Adds a space and a number.
pub fn push_number(text: &mut Vec<u8>, number: u64) -> Result<(), AllocError>
    ensures { OnOk result (text.new.items ≡ numbered text.old.items number) }
{
    text.push(b' ')?;
    push_decimal(text, number)
}

// The name at a place, or nothing where there is no such place.
pub fn name_at(names: &Names, node: u32) -> &[u8]
    ensures { result.now ≡ spec_name_at names.now node }
{
    if node < names.len() {
        names.name(node)
    } else {
        &[]
    }
}

// Adds each name of the set, with a space before it.
pub fn push_names(text: &mut Vec<u8>, system: &System, set: &NodeSet) -> Result<(), AllocError>
    requires { length set.now ≡ length system.now.sets }
    ensures { OnOk result (text.new.items ≡ text.old.items ++ listed system.now.names set.now) }
{
    let names = system.names();
    for v in set.iter() {
        push_behind(text, names.name(v))?;
    }
    Ok(())
}

// Adds a line of a word and the names of the set.
pub fn push_list(
    text: &mut Vec<u8>,
    word: &str,
    system: &System,
    set: &NodeSet,
) -> Result<(), AllocError>
    requires { length set.now ≡ length system.now.sets }
    ensures { OnOk result (text.new.items ≡ text.old.items ++ line (list word.now system.now.names set.now)) }
{
    push_word(text, word)?;
    push_names(text, system, set)?;
    text.push(b'\n')?;
    Ok(())
}

// Adds a line of a word, and after it the name of a node where there is one.
fn push_word_if_any(
    text: &mut Vec<u8>,
    word: &str,
    names: &Names,
    node: Option<u32>,
) -> Result<(), AllocError>
    ensures { OnOk result (text.new.items ≡ text.old.items ++ line (word_if_any word.now names.now node)) }
{
    push_word(text, word)?;
    if let Some(node) = node {
        push_behind(text, name_at(names, node))?;
    }
    text.push(b'\n')?;
    Ok(())
}

// Adds that a certificate of the kind that has this word is accepted.
fn push_accepted(text: &mut Vec<u8>, word: &str) -> Result<(), AllocError>
    ensures { OnOk result (text.new.items ≡ text.old.items ++ accepted_word word.now) }
{
    push_word(text, "accepted")?;
    push_behind(text, word.as_bytes())
}

// The same as a line.
fn push_accepted_line(text: &mut Vec<u8>, word: &str) -> Result<(), AllocError>
    ensures { OnOk result (text.new.items ≡ text.old.items ++ line (accepted_word word.now)) }
{
    push_accepted(text, word)?;
    text.push(b'\n')?;
    Ok(())
}

// The same as a line that ends with a number.
fn push_accepted_count(text: &mut Vec<u8>, word: &str, number: u64) -> Result<(), AllocError>
    ensures { OnOk result (text.new.items ≡ text.old.items ++ spec_counted (accepted_word word.now) number) }
{
    push_accepted(text, word)?;
    push_number(text, number)?;
    text.push(b'\n')?;
    Ok(())
}

// Adds the line of a smallest quorum that a certificate shows: how many nodes it has, or that there is none.
fn push_least(text: &mut Vec<u8>, answer: &Option<NodeSet>) -> Result<(), AllocError>
    ensures { OnOk result (text.new.items ≡ text.old.items ++ accepted_body (Reached.Least answer.now)) }
{
    let word = kind_word(ReachKind::Nodes(Listed::Smaller), ListKind::Whole);
    match answer {
        Some(set) => push_accepted_count(text, word, u64::from(set.count())),
        None => {
            push_accepted(text, word)?;
            push_behind(text, b"none")?;
            text.push(b'\n')?;
            Ok(())
        }
    }
}

// Adds the line of what a body shows that is read line by line.
fn push_body(text: &mut Vec<u8>, shown: &Reached) -> Result<(), AllocError>
    ensures { OnOk result (text.new.items ≡ text.old.items ++ accepted_body shown.now) }
{
    match shown {
        Reached::Minimal(sought, sets) => push_accepted_count(
            text,
            kind_word(ReachKind::Nodes(*sought), ListKind::Whole),
            sets.as_slice().len() as u64,
        ),
        Reached::Least(answer) => push_least(text, answer),
        Reached::OrgBlocking(_, sets) => push_accepted_count(
            text,
            kind_word(ReachKind::Groups, ListKind::Whole),
            sets.as_slice().len() as u64,
        ),
        Reached::Partial(shows, units) => {
            push_accepted_count(text, kind_word(*shows, ListKind::Partial), *units)
        }
    }
}

// Adds the line of what a certificate shows.
fn push_kind(text: &mut Vec<u8>, answer: &Conclusion) -> Result<(), AllocError>
    ensures { OnOk result (text.new.items ≡ text.old.items ++ accepted_kind answer.now) }
{
    match answer {
        Conclusion::Pair(_) => push_accepted_line(text, "pair"),
        Conclusion::Refutation => push_accepted_line(text, aim_word(Aim::Refutation)),
        Conclusion::Partial(units) => push_accepted_count(text, aim_word(Aim::Partial), *units),
        Conclusion::Reached(shown) => push_body(text, shown),
    }
}

// Adds a line for each set.
pub fn push_sets(text: &mut Vec<u8>, system: &System, sets: &[NodeSet]) -> Result<(), AllocError>
    requires { All (λ s. length s ≡ length system.now.sets) sets.now }
    ensures { OnOk result (text.new.items ≡ text.old.items ++ set_lines system.now.names sets.now) }
{
    for set in sets {
        push_list(text, "set", system, set)?;
    }
    Ok(())
}

// Adds the lines of a body's sets, where it has some.
fn push_body_sets(text: &mut Vec<u8>, system: &System, shown: &Reached) -> Result<(), AllocError>
    requires { ReachedHasPlaces (length system.now.sets) shown.now }
    ensures { OnOk result (text.new.items ≡ text.old.items ++ body_lines system.now.names shown.now) }
{
    match shown {
        Reached::Minimal(_, sets) => push_sets(text, system, sets.as_slice()),
        Reached::Least(Some(set)) => push_list(text, "set", system, set),
        Reached::OrgBlocking(groups, sets) => push_group_sets(text, groups, sets.as_slice()),
        _ => Ok(()),
    }
}

// Adds the lines of an answer's sets, where it has some.
fn push_answer_sets(
    text: &mut Vec<u8>,
    system: &System,
    answer: &Conclusion,
) -> Result<(), AllocError>
    requires { ConclusionHasPlaces (length system.now.sets) answer.now }
    ensures { OnOk result (text.new.items ≡ text.old.items ++ answer_lines system.now.names answer.now) }
{
    match answer {
        Conclusion::Reached(shown) => push_body_sets(text, system, shown),
        _ => Ok(()),
    }
}

/// The lines of an accepted certificate: its kind, its lines `from` and `faulty`, and the sets of a list.
pub fn accepted(alloc: Global, system: &System, accepted: &Accepted) -> Result<Vec<u8>, AllocError>
    requires { HasPlaces (length system.now.sets) accepted.now }
    ensures { IfOk result (λ text. text.items ≡ spec_accepted system.now.names accepted.now) }
{
    let mut text = Vec::new(alloc);
    push_kind(&mut text, &accepted.answer)?;
    push_word_if_any(&mut text, "from", system.names(), accepted.header.from)?;
    push_list(&mut text, "faulty", system, &accepted.header.faulty)?;
    push_answer_sets(&mut text, system, &accepted.answer)?;
    Ok(text)
}

/// The lines of a proof from outside that is verified: that it is, and the lines `from` and `faulty` of what it speaks of.
pub fn verified_lines(
    alloc: Global,
    system: &System,
    header: &Header,
) -> Result<Vec<u8>, AllocError>
    requires { length header.now.faulty ≡ length system.now.sets }
    ensures { IfOk result (λ text. text.items ≡ spec_verified_lines system.now.names header.now) }
{
    let mut text = Vec::new(alloc);
    push_word(&mut text, "verified\n")?;
    push_word_if_any(&mut text, "from", system.names(), header.from)?;
    push_list(&mut text, "faulty", system, &header.faulty)?;
    Ok(text)
}

/// A text, and after it the lines `first` and `second` of two quorums.
pub fn with_pair(
    alloc: Global,
    head: &str,
    system: &System,
    pair: &Pair,
) -> Result<Vec<u8>, AllocError>
    requires first { length pair.now.first ≡ length system.now.sets }
    requires second { length pair.now.second ≡ length system.now.sets }
    ensures { IfOk result (λ text. text.items ≡ spec_with_pair head.now system.now.names pair.now) }
{
    let mut text = Vec::from_slice(alloc, head.as_bytes())?;
    push_list(&mut text, "first", system, &pair.first)?;
    push_list(&mut text, "second", system, &pair.second)?;
    Ok(text)
}

/// A text, and after it a line of a word and the names of a set.
pub fn with_list(
    alloc: Global,
    head: &str,
    word: &str,
    system: &System,
    set: &NodeSet,
) -> Result<Vec<u8>, AllocError>
    requires { length set.now ≡ length system.now.sets }
    ensures { IfOk result (λ text. text.items ≡ spec_with_list head.now word.now system.now.names set.now) }
{
    let mut text = Vec::from_slice(alloc, head.as_bytes())?;
    push_list(&mut text, word, system, set)?;
    Ok(text)
}

// Adds a line of a word and a number.
pub fn push_count(text: &mut Vec<u8>, word: &str, number: u64) -> Result<(), AllocError>
    ensures { OnOk result (text.new.items ≡ text.old.items ++ spec_counted word.now number) }
{
    push_word(text, word)?;
    push_number(text, number)?;
    text.push(b'\n')?;
    Ok(())
}

// Adds whether the nodes without a set are available, and which of them are unmet where they aren't.
fn push_available(
    text: &mut Vec<u8>,
    system: &System,
    is_available: bool,
    unmet: &NodeSet,
) -> Result<(), AllocError>
    requires { length unmet.now ≡ length system.now.sets }
    ensures { OnOk result (text.new.items ≡ text.old.items ++ available_lines system.now.names is_available unmet.now) }
{
    if is_available {
        return push_word(text, "available yes\n");
    }
    push_word(text, "available no\n")?;
    push_list(text, "unmet", system, unmet)
}

/// Adds what is so after an edit: its number, the greatest quorum, whether the nodes without a set are available, and which of
/// them are unmet where they aren't.
pub fn push_edit(
    text: &mut Vec<u8>,
    edit: u64,
    system: &System,
    quorum: &NodeSet,
    is_available: bool,
    unmet: &NodeSet,
) -> Result<(), AllocError>
    requires quorum { length quorum.now ≡ length system.now.sets }
    requires unmet { length unmet.now ≡ length system.now.sets }
    ensures { OnOk result (text.new.items ≡ text.old.items ++ edit_lines system.now.names edit quorum.now is_available unmet.now) }
{
    push_count(text, "edit", edit)?;
    push_list(text, "greatest", system, quorum)?;
    push_available(text, system, is_available, unmet)
}

/// A line of a word and how many sets there are, and after it a line for each of them.
pub fn with_sets(
    alloc: Global,
    word: &str,
    system: &System,
    sets: &[NodeSet],
) -> Result<Vec<u8>, AllocError>
    requires { All (λ s. length s ≡ length system.now.sets) sets.now }
    ensures { IfOk result (λ text. text.items ≡ spec_with_sets word.now system.now.names sets.now) }
{
    let mut text = Vec::new(alloc);
    push_count(&mut text, word, sets.len() as u64)?;
    push_sets(&mut text, system, sets)?;
    Ok(text)
}

/// The lines of a smallest quorum: how many nodes it has, and their names.
pub fn smallest(alloc: Global, system: &System, set: &NodeSet) -> Result<Vec<u8>, AllocError>
    requires { length set.now ≡ length system.now.sets }
    ensures { IfOk result (λ text. text.items ≡ spec_smallest system.now.names set.now) }
{
    let mut text = Vec::new(alloc);
    push_count(&mut text, "least", u64::from(set.count()))?;
    push_list(&mut text, "set", system, set)?;
    Ok(text)
}

// How many nodes a system has, how many entries of quorum sets, and how many nodes without a quorum set.
pub fn counts(alloc: Global, system: &System) -> Result<Vec<u8>, AllocError>
    ensures { IfOk result (λ text. text.items ≡ spec_counts system.now) }
{
    let mut text = Vec::new(alloc);
    push_count(&mut text, "nodes", system.len() as u64)?;
    push_count(&mut text, "entries", system.entries())?;
    push_count(&mut text, "unset", system.unset())?;
    Ok(text)
}

// The first comment lines of an exported formula: its version, the digest of the configuration, and the node of whose trust
// closure the formula speaks.
fn export_head(
    alloc: Global,
    version: u64,
    digest: &[u8; 32],
    from: Option<&[u8]>,
) -> Result<Vec<u8>, AllocError>
    ensures { IfOk result (λ text. text.items ≡ spec_export_head version digest.now (option_map (λ name. name.now) from.entry)) }
{
    let mut text = Vec::new(alloc);
    push_count(&mut text, "c formula", version)?;
    push_word(&mut text, "c config")?;
    push_behind(&mut text, digest_text::digits(digest).as_slice())?;
    push_word(&mut text, "\nc from")?;
    if let Some(name) = from {
        push_behind(&mut text, name)?;
    }
    text.push(b'\n')?;
    Ok(text)
}

/// The comment lines of an exported formula. They name its version, the digest of the configuration, the node of whose trust
/// closure the formula speaks, and the faulty nodes.
pub fn export_comments(
    alloc: Global,
    version: u64,
    digest: &[u8; 32],
    from: Option<&[u8]>,
    system: &System,
    faulty: &NodeSet,
) -> Result<Vec<u8>, AllocError>
    requires { length faulty.now ≡ length system.now.sets }
    ensures { IfOk result (λ text. text.items ≡ spec_export_comments version digest.now (option_map (λ name. name.now) from.entry) system.now.names faulty.now) }
{
    let mut text = export_head(alloc, version, digest, from)?;
    push_list(&mut text, "c faulty", system, faulty)?;
    Ok(text)
}

/// How large a trial is: lines of its organisations and their nodes, and of the variables and clauses of its intersection
/// formula.
pub fn trial_size(
    alloc: Global,
    organisations: u64,
    nodes: u64,
    vars: u64,
    clauses: u64,
) -> Result<Vec<u8>, AllocError>
    ensures { IfOk result (λ text. text.items ≡ spec_trial_size organisations nodes vars clauses) }
{
    let mut text = Vec::new(alloc);
    push_count(&mut text, "trial", organisations)?;
    push_count(&mut text, "nodes", nodes)?;
    push_count(&mut text, "variables", vars)?;
    push_count(&mut text, "clauses", clauses)?;
    Ok(text)
}

/// A line of a word and a number, as for a formula that has too many variables.
pub fn counted(alloc: Global, word: &str, number: u64) -> Result<Vec<u8>, AllocError>
    ensures { IfOk result (λ text. text.items ≡ spec_counted word.now number) }
{
    let mut text = Vec::new(alloc);
    push_count(&mut text, word, number)?;
    Ok(text)
}
