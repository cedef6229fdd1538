//! The edit that a line of a script says.

ghost use Rattle.std.specs.Prelude.{◌≡◌, ◌⊎◌, Some, None, IfOk, IfErr, option_map};
ghost use Rattle.std.specs.Option.{option_copied};
ghost use Rattle.whatif_session.specs.EditView.{edit_view, target_view, texts, HasKeys};
ghost use Rattle.whatif_session.specs.Lines.{places_after, path_in, key_in, target_in, threshold_edit as threshold_edit_in, add_edit as add_edit_in, drop_edit as drop_edit_in, declare_edit as declare_edit_in, retire_edit as retire_edit_in, edit_in, edit_of};

use crate::faults::EditFault;
use crate::numbers::{is_number, read_place, read_threshold};
use crate::parts::parts;
use name_set::is_key;
use std::alloc::{AllocError, Global};

/// The quorum set that an edit is about: that of a node, or the one inside it that a path leads to.
#[derive(Drop)]
pub(crate) struct Target<'l> {
    pub node: &'l [u8],
    pub path: Vec<u32>,
}

/// What a line says.
#[derive(Drop)]
pub(crate) enum Edit<'l> {
    Threshold(Target<'l>, u64),
    Add(Target<'l>, &'l [u8]),
    Drop(Target<'l>, &'l [u8]),
    Declare(&'l [u8]),
    Retire(&'l [u8]),
}

/// The places that words say, or none where one is no number.
fn read_places(alloc: Global, words: &[&[u8]]) -> Result<Option<Vec<u32>>, AllocError>
    ensures { IfOk result (λ places. option_map (λ p. p.items) places ≡ places_after (texts words.now)) }
{
    let mut places = Vec::with_capacity(alloc, words.len())?;
    for word in words {
        if !is_number(*word) {
            return Ok(None);
        }
        places.push(read_place(*word))?;
    }
    Ok(Some(places))
}

/// The path that a word says, or none.
fn read_path(alloc: Global, word: &[u8]) -> Result<Option<Vec<u32>>, AllocError>
    ensures { IfOk result (λ path. option_map (λ p. p.items) path ≡ path_in word.now) }
{
    let parts = parts(alloc, word, b'.')?;
    let Some((first, places)) = parts.split_first() else {
        return Ok(None);
    };
    if !first.is_empty() || places.is_empty() {
        return Ok(None);
    }
    if places.len() == 1 && places[0].is_empty() {
        return Ok(Some(Vec::new(alloc)));
    }
    read_places(alloc, places)
}

/// The word, if it is a key.
fn key_of(word: &[u8]) -> Option<&[u8]>
    ensures { option_copied result ≡ key_in word.now }
{
    if is_key(word) { Some(word) } else { None }
}

/// The node and the path to its quorum set that two words say, or none.
fn read_target<'l>(
    alloc: Global,
    node: &'l [u8],
    path: &[u8],
) -> Result<Option<Target<'l>>, AllocError>
    ensures { IfOk result (λ target. option_map target_view target ≡ target_in node.now path.now) }
{
    let Some(node) = key_of(node) else {
        return Ok(None);
    };
    let Some(path) = read_path(alloc, path)? else {
        return Ok(None);
    };
    Ok(Some(Target { node, path }))
}

fn threshold_edit<'l>(alloc: Global, words: &[&'l [u8]]) -> Result<Option<Edit<'l>>, AllocError>
    ensures { IfOk result (λ edit. option_map edit_view edit ≡ threshold_edit_in (texts words.now)) }
{
    let [node, path, number] = words else {
        return Ok(None);
    };
    let Some(target) = read_target(alloc, *node, *path)? else {
        return Ok(None);
    };
    let Some(threshold) = read_threshold(*number) else {
        return Ok(None);
    };
    Ok(Some(Edit::Threshold(target, threshold)))
}

fn add_edit<'l>(alloc: Global, words: &[&'l [u8]]) -> Result<Option<Edit<'l>>, AllocError>
    ensures { IfOk result (λ edit. option_map edit_view edit ≡ add_edit_in (texts words.now)) }
{
    let [node, path, name] = words else {
        return Ok(None);
    };
    let Some(target) = read_target(alloc, *node, *path)? else {
        return Ok(None);
    };
    let Some(name) = key_of(*name) else {
        return Ok(None);
    };
    Ok(Some(Edit::Add(target, name)))
}

fn drop_edit<'l>(alloc: Global, words: &[&'l [u8]]) -> Result<Option<Edit<'l>>, AllocError>
    ensures { IfOk result (λ edit. option_map edit_view edit ≡ drop_edit_in (texts words.now)) }
{
    let [node, path, name] = words else {
        return Ok(None);
    };
    let Some(target) = read_target(alloc, *node, *path)? else {
        return Ok(None);
    };
    let Some(name) = key_of(*name) else {
        return Ok(None);
    };
    Ok(Some(Edit::Drop(target, name)))
}

fn declare_edit<'l>(words: &[&'l [u8]]) -> Option<Edit<'l>>
    ensures { option_map edit_view result ≡ declare_edit_in (texts words.now) }
{
    let [node] = words else {
        return None;
    };
    let Some(node) = key_of(*node) else {
        return None;
    };
    Some(Edit::Declare(node))
}

fn retire_edit<'l>(words: &[&'l [u8]]) -> Option<Edit<'l>>
    ensures { option_map edit_view result ≡ retire_edit_in (texts words.now) }
{
    let [node] = words else {
        return None;
    };
    let Some(node) = key_of(*node) else {
        return None;
    };
    Some(Edit::Retire(node))
}

/// The edit that the words of a line say, or none.
fn read_words<'l>(alloc: Global, words: &[&'l [u8]]) -> Result<Option<Edit<'l>>, AllocError>
    ensures { IfOk result (λ edit. option_map edit_view edit ≡ edit_in (texts words.now)) }
{
    let Some((kind, words)) = words.split_first() else {
        return Ok(None);
    };
    if *kind == b"threshold".as_slice() {
        threshold_edit(alloc, words)
    } else if *kind == b"add".as_slice() {
        add_edit(alloc, words)
    } else if *kind == b"drop".as_slice() {
        drop_edit(alloc, words)
    } else if *kind == b"declare".as_slice() {
        Ok(declare_edit(words))
    } else if *kind == b"retire".as_slice() {
        Ok(retire_edit(words))
    } else {
        Ok(None)
    }
}

/// The edit that a line says: linear in its bytes.
pub(crate) fn read_edit<'l>(alloc: Global, line: &'l [u8]) -> Result<Edit<'l>, EditFault>
    ensures ok { IfOk result (λ edit. edit_of line.now ≡ Some (edit_view edit)) }
    ensures err { IfErr result (λ e. (e ≡ EditFault.Memory) ⊎ ((e ≡ EditFault.BadLine) × (edit_of line.now ≡ None))) }
    ensures keys { IfOk result (λ edit. HasKeys (edit_view edit)) }
{
    let words = parts(alloc, line, b' ')?;
    let edit = read_words(alloc, &words)?;
    edit.ok_or(EditFault::BadLine)
}
