//! Sets of groups, by the texts of the groups.
ghost use Rattle.std.specs.Prelude.{◌≡◌, ◌++◌, length, codes, All, OnOk, IfOk};
ghost use Rattle.node_json.specs.Groups.{texts_of};
ghost use Rattle.printed_lines.specs.Lines.{line, list, listed, set_lines, with_sets};

use crate::words::{push_behind, push_count, push_word};
use name_set::GroupSet;
use node_json::Groups;
use std::alloc::{AllocError, Global};

// Adds the text of each group of the set, with a space before it.
fn push_texts(text: &mut Vec<u8>, groups: &Groups, set: &GroupSet) -> Result<(), AllocError>
    requires { length set.now ≡ length groups.now }
    ensures { OnOk result (text.new.items ≡ text.old.items ++ listed (texts_of groups.now) set.now) }
{
    for at in set.iter() {
        push_behind(text, groups.text(at))?;
    }
    Ok(())
}

// Adds the line of a set.
fn push_group_set(text: &mut Vec<u8>, groups: &Groups, set: &GroupSet) -> Result<(), AllocError>
    requires { length set.now ≡ length groups.now }
    ensures { OnOk result (text.new.items ≡ text.old.items ++ line (list (codes "set") (texts_of groups.now) set.now)) }
{
    push_word(text, "set")?;
    push_texts(text, groups, set)?;
    text.push(b'\n')?;
    Ok(())
}

// Adds a line for each set.
pub fn push_group_sets(
    text: &mut Vec<u8>,
    groups: &Groups,
    sets: &[GroupSet],
) -> Result<(), AllocError>
    requires { All (λ s. length s ≡ length groups.now) sets.now }
    ensures { OnOk result (text.new.items ≡ text.old.items ++ set_lines (texts_of groups.now) sets.now) }
{
    for set in sets {
        push_group_set(text, groups, set)?;
    }
    Ok(())
}

/// A line of a word and how many sets of groups there are, and after it a line for each of them.
pub fn with_group_sets(
    alloc: Global,
    word: &str,
    groups: &Groups,
    sets: &[GroupSet],
) -> Result<Vec<u8>, AllocError>
    requires { All (λ s. length s ≡ length groups.now) sets.now }
    ensures { IfOk result (λ text. text.items ≡ with_sets word.now (texts_of groups.now) sets.now) }
{
    let mut text = Vec::new(alloc);
    push_count(&mut text, word, sets.len() as u64)?;
    push_group_sets(&mut text, groups, sets)?;
    Ok(text)
}
