//! The words of a line.
ghost use Rattle.std.specs.Prelude.{◌≡◌, ◌<◌, ◌≤◌, ◌-◌, List, ◌∷◌, true, false, length, drop, slice_index, if◌then◌else◌};
ghost use Rattle.std.specs.List.{list_any, position_or_len, prefix_len};
ghost use Rattle.std.specs.Iterator.{YieldsFirstRef, item_count};
ghost use Rattle.lrat_text.specs.Words.{Word, words_of, is_blank};
ghost use Rattle.lrat_text.specs.Lines.{is_mark, is_marked};

use std::marker::Model;

/// The words of a line that are left, as slices of it.
#[derive(Drop)]
pub struct Words<'a> {
    rest: &'a [u8],
}

impl<'a> Model for Words<'a> {
    ghost use Rattle.std.specs.Prelude.{List};
    ghost use Rattle.lrat_text.specs.Words.{Word, words_of};

    ghost Value = { List Word };

    ghost view = { λ w. words_of w.rest.now };
}

impl<'a> Words<'a> {
    /// The words of a line.
    pub fn of(line: &'a [u8]) -> Words<'a>
        ensures { result ≡ words_of line.now }
    {
        Words { rest: line }
    }

    /// Takes the word `d`, if it comes next, and gives whether it did.
    pub fn take_mark(&mut self) -> bool
        ensures marked { result ≡ is_marked self.old }
        ensures left { self.new ≡ (if result then drop 1 self.old else self.old) }
    {
        let before = self.rest;
        match self.next() {
            Some(word) if is_mark(word) => true,
            _ => {
                self.rest = before;
                false
            }
        }
    }
}

impl<'a> Iterator for Words<'a> {
    type Item = &'a [u8];

    ghost next_gives = { YieldsFirstRef (λ s. s) };

    ghost remaining = { item_count (λ s. s) };

    /// In time linear in the bytes that it goes over.
    fn next(&mut self) -> Option<&'a [u8]> {
        let (_, line) = self.rest.split_at(blanks(self.rest));
        if line.is_empty() {
            return None;
        }
        let (word, rest) = line.split_at(word_len(line));
        self.rest = rest;
        Some(word)
    }
}

/// The word that begins a deletion.
pub fn is_mark(word: &[u8]) -> bool
    ensures { result ≡ is_mark word.now }
{
    word == b"d".as_slice()
}

fn is_blank(byte: u8) -> bool
    ensures { result ≡ is_blank byte }
{
    byte == b' ' || byte == b'\t'
}

/// How many blanks come first.
fn blanks(text: &[u8]) -> usize
    ensures { result ≡ prefix_len is_blank text.now }
{
    for (i, byte) in text.iter().enumerate() {
        if !is_blank(*byte) {
            return i;
        }
    }
    text.len()
}

/// How many bytes come before the first blank.
pub fn word_len(text: &[u8]) -> usize
    ensures { result ≡ position_or_len is_blank text.now }
{
    for (i, byte) in text.iter().enumerate() {
        if is_blank(*byte) {
            return i;
        }
    }
    text.len()
}

/// The place after the last blank, 0 where there is none.
pub fn blank_end(text: &[u8]) -> usize
    ensures within { result ≤ length text.now }
    ensures ends { 0 < result → is_blank (slice_index text.now (result - 1)) ≡ true }
    ensures none { list_any is_blank (drop result text.now) ≡ false }
{
    let mut end = text.len();
    while end > 0 {
        if is_blank(text[end - 1]) {
            return end;
        }
        end -= 1;
    }
    0
}
