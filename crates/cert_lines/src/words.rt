//! The words of a line.
ghost use Rattle.std.specs.Prelude.{◌≡◌, ◌∷◌, ◌&&◌, ◌==◌, Option, IsTrue, true, false, None};
ghost use Rattle.std.specs.Option.{option_copied};
ghost use Rattle.std.specs.List.{list_all, position_or_len};
ghost use Rattle.std.specs.Iterator.{YieldsFirstRef, item_count};
ghost use Rattle.cert_lines.specs.Words.{words_of, words_left, is_name_byte, is_name, follows, names_in, names_behind};

use std::cmp::Ordering;
use std::marker::Model;

/// The words of a line that are left, as slices of it. They stand between single spaces.
#[derive(Drop)]
pub struct Words<'a> {
    rest: Option<&'a [u8]>,
}

impl<'a> Model for Words<'a> {
    ghost use Rattle.std.specs.Prelude.{List};
    ghost use Rattle.std.specs.Option.{option_copied};
    ghost use Rattle.cert_lines.specs.Words.{Word, words_left};

    ghost Value = { List Word };

    ghost view = { λ w. words_left (option_copied w.rest) };
}

impl<'a> Words<'a> {
    /// The words of a line.
    pub fn of(line: &'a [u8]) -> Words<'a>
        ensures { result ≡ words_of line.now }
    {
        Words { rest: Some(line) }
    }
}

impl<'a> Iterator for Words<'a> {
    type Item = &'a [u8];

    ghost next_gives = { YieldsFirstRef (λ s. s) };

    ghost remaining = { item_count (λ s. s) };

    /// In time linear in the word.
    fn next(&mut self) -> Option<&'a [u8]> {
        let Some(text) = self.rest else {
            return None;
        };
        let (word, rest) = cut_word(text);
        self.rest = rest;
        Some(word)
    }
}

/// How many bytes come before the first space.
fn word_len(text: &[u8]) -> usize
    ensures { result ≡ position_or_len (λ b. b == 32) text.now }
{
    for (i, byte) in text.iter().enumerate() {
        if *byte == b' ' {
            return i;
        }
    }
    text.len()
}

/// The first word, and what follows the space after it, if there is one.
fn cut_word(text: &[u8]) -> (&[u8], Option<&[u8]>)
    ensures { words_of text.now ≡ result.0.now ∷ words_left (option_copied result.1) }
{
    let (word, rest) = text.split_at(word_len(text));
    match rest.split_first() {
        Some((_, behind)) => (word, Some(behind)),
        None => (word, None),
    }
}

/// Whether all bytes may stand in a name.
fn has_name_bytes(word: &[u8]) -> bool
    ensures { result ≡ list_all is_name_byte word.now }
{
    word.iter().all(|b| 0x21 <= *b && *b <= 0x7E)
}

/// Whether the word is a name.
pub fn is_name(word: &[u8]) -> bool
    ensures { result ≡ is_name word.now }
{
    0 < word.len() && has_name_bytes(word)
}

/// Whether the word comes after the one before it, if there is one, in byte order.
pub fn follows(before: Option<&[u8]>, word: &[u8]) -> bool
    ensures { result ≡ follows (option_copied before.entry) word.now }
{
    match before {
        Some(name) => name.cmp(word) == Ordering::Less,
        None => true,
    }
}

/// Takes the first word, and gives whether it is this one.
pub fn begins(words: &mut Words<'_>, word: &str) -> bool
    ensures yes { result ≡ true → names_behind word.now words.old ≡ names_in words.new }
    ensures no { result ≡ false → names_behind word.now words.old ≡ None }
{
    match words.next() {
        Some(first) => first == word.as_bytes(),
        None => false,
    }
}
