//! The words of a step line with the numbers that they say: most are found and read in one pass over their bytes.
ghost use Rattle.std.specs.Prelude.{◌≡◌, ◌<◌, ◌^◌, ◌∷◌, [], None, Some, IfSome, false, length, neg_ℤ, pos, slice_index, true};
ghost use Rattle.std.specs.Iterator.{YieldsFirst, item_count};
ghost use Rattle.lrat_text.specs.Words.{words_of, is_blank};
ghost use Rattle.lrat_text.specs.Numbers.{id_in, hint_in, literal_in};
ghost use Rattle.lrat_text.specs.Lines.{is_mark, is_zero};
ghost use Rattle.lrat_stream.specs.Said.{said, IsFront};

use lrat_model::Lit;
use lrat_text::{is_mark, is_zero, read_hint, read_id, read_literal, word_len};
use std::marker::Model;

/// The greatest number after which a digit is put in the first pass: no sum of them wraps.
const MOST_TENTH: u64 = 100_000_000_000_000_000;

/// A word of a step line, and the number that it says: 0 where it closes a list, or a hint.
#[derive(Drop)]
pub struct SpelledWord<'a> {
    bytes: &'a [u8],
    number: Option<i64>,
}

impl<'a> Model for SpelledWord<'a> {
    ghost use Rattle.std.specs.Prelude.{◌≡◌};
    ghost use Rattle.lrat_text.specs.Words.{Word};
    ghost use Rattle.lrat_stream.specs.Said.{said};

    ghost Value = { Word };

    ghost view = { λ w. w.bytes.now };

    ghost invariant = { λ w. w.number ≡ said w.bytes.now };
}

impl<'a> SpelledWord<'a> {
    /// Reads a word. In time linear in its bytes.
    fn of(bytes: &'a [u8]) -> SpelledWord<'a>
        ensures { result ≡ bytes.now }
    {
        SpelledWord {
            bytes,
            number: said(bytes),
        }
    }

    /// Whether it closes a list.
    pub fn is_zero(&self) -> bool
        ensures { result ≡ is_zero self.now }
    {
        match self.number {
            Some(number) => number == 0,
            None => false,
        }
    }

    /// Whether it begins a deletion.
    pub fn is_mark(&self) -> bool
        ensures { result ≡ is_mark self.now }
    {
        is_mark(self.bytes)
    }

    /// The hint that it says.
    pub fn hint(&self) -> Option<i64>
        requires { is_zero self.now ≡ false }
        ensures { result ≡ hint_in self.now }
    {
        self.number
    }

    /// The id that it says. In time linear in its bytes.
    pub fn id(&self) -> Option<u64>
        ensures { result ≡ id_in self.now }
    {
        read_id(self.bytes)
    }

    /// The literal that it says. In time linear in its bytes.
    pub fn literal(&self) -> Option<Lit>
        ensures { result ≡ literal_in self.now }
    {
        read_literal(self.bytes)
    }
}

/// The number that a word says.
#[cold]
#[inline(never)]
fn said(word: &[u8]) -> Option<i64>
    ensures { result ≡ said word.now }
{
    if is_zero(word) {
        return Some(0);
    }
    read_hint(word)
}

/// The words of a line that are left.
#[derive(Drop)]
pub struct SpelledWords<'a> {
    rest: &'a [u8],
}

impl<'a> Model for SpelledWords<'a> {
    ghost use Rattle.std.specs.Prelude.{List};
    ghost use Rattle.lrat_text.specs.Words.{Word, words_of};

    ghost Value = { List Word };

    ghost view = { λ w. words_of w.rest.now };
}

impl<'a> SpelledWords<'a> {
    /// The words of a line.
    pub fn of(line: &'a [u8]) -> SpelledWords<'a>
        ensures { result ≡ words_of line.now }
    {
        SpelledWords { rest: line }
    }
}

impl<'a> Iterator for SpelledWords<'a> {
    type Item = SpelledWord<'a>;

    ghost next_gives = { YieldsFirst (λ s. s) };

    ghost remaining = { item_count (λ s. s) };

    /// In time linear in the bytes that it goes over.
    #[inline(always)]
    fn next(&mut self) -> Option<SpelledWord<'a>> {
        if let Some((word, rest)) = front(self.rest) {
            self.rest = rest;
            return Some(word);
        }
        // The word is put together here, so that what the call gives and what comes from `front` share no memory: with a
        // place of its own each, the latter stays in registers.
        let Some((bytes, rest)) = any_word(self.rest) else {
            return None;
        };
        self.rest = rest;
        Some(SpelledWord::of(bytes))
    }
}

/// The first word, where no blank comes before it and it is a number of a few digits, as nearly all are. In one pass.
#[inline(always)]
fn front(text: &[u8]) -> Option<(SpelledWord<'_>, &[u8])>
    ensures { IfSome result (λ r. words_of text.now ≡ r.0 ∷ words_of r.1.now) }
{
    let (number, len) = front_number(text)?;
    let (bytes, behind) = text.split_at(len);
    let word = SpelledWord {
        bytes,
        number: Some(number),
    };
    Some((word, behind_blank(behind)))
}

/// The first word, whatever it is, and what follows it.
#[cold]
#[inline(never)]
fn any_word(text: &[u8]) -> Option<(&[u8], &[u8])>
    ensures some { IfSome result (λ r. words_of text.now ≡ r.0.now ∷ words_of r.1.now) }
    ensures none { result ≡ None → words_of text.now ≡ [] }
{
    let line = without_blanks(text);
    if line.is_empty() {
        return None;
    }
    let (word, rest) = line.split_at(word_len(line));
    // After the blank, so that the next word is one that `front` reads.
    Some((word, behind_blank(rest)))
}

/// The text after the blanks at its front.
fn without_blanks(text: &[u8]) -> &[u8]
    ensures words { words_of result.now ≡ words_of text.now }
    ensures first { 0 < length result.now → is_blank (slice_index result.now 0) ≡ false }
{
    let mut rest = text;
    while let Some((byte, behind)) = rest.split_first() {
        if !is_blank(*byte) {
            return rest;
        }
        rest = behind;
    }
    rest
}

/// The text after its first byte, if it has one.
#[inline(always)]
fn behind_blank(text: &[u8]) -> &[u8]
    requires { 0 < length text.now → is_blank (slice_index text.now 0) ≡ true }
    ensures { words_of result.now ≡ words_of text.now }
{
    match text.split_first() {
        Some((_, behind)) => behind,
        None => text,
    }
}

fn is_blank(byte: u8) -> bool
    ensures { result ≡ is_blank byte }
{
    byte == b' ' || byte == b'\t'
}

/// The number that the bytes up to the first blank say, and how many these are; or None, where they are no number or may be
/// too great a one.
#[inline(always)]
fn front_number(text: &[u8]) -> Option<(i64, usize)>
    ensures { IfSome result (λ r. IsFront said text.now r.0 r.1) }
{
    match text.split_first() {
        Some((b'-', digits)) => {
            let (number, len) = front_digits(digits)?;
            Some((minus(number), len + 1))
        }
        Some((b'0', behind)) if is_end(behind) => Some((0, 1)),
        _ => {
            let (number, len) = front_digits(text)?;
            Some((number as i64, len))
        }
    }
}

/// The minus of a number.
fn minus(number: u64) -> i64
    requires { number < 2 ^ 63 }
    ensures { result ≡ neg_ℤ (pos number) }
{
    -(number as i64)
}

/// Whether a word ends before this text.
fn is_end(text: &[u8]) -> bool
    ensures { result ≡ true → 0 < length text.now → is_blank (slice_index text.now 0) ≡ true }
{
    match text.first() {
        Some(byte) => is_blank(*byte),
        None => true,
    }
}

/// The number that the digits up to the first blank say, and how many these are; or None, where the first of them is 0, or
/// another byte comes, or the number may be too great.
#[inline(always)]
fn front_digits(text: &[u8]) -> Option<(u64, usize)>
    ensures front { IfSome result (λ r. IsFront id_in text.now r.0 r.1) }
    ensures small { IfSome result (λ r. r.0 < 2 ^ 63) }
{
    let first = *text.first()?;
    if first <= b'0' || first > b'9' {
        return None;
    }
    let mut number = u64::from(first - b'0');
    let mut len = 1;
    while len < text.len() {
        let byte = text[len];
        if !byte.is_ascii_digit() {
            return if is_blank(byte) {
                Some((number, len))
            } else {
                None
            };
        }
        if number > MOST_TENTH {
            return None;
        }
        number = number * 10 + u64::from(byte - b'0');
        len += 1;
    }
    Some((number, len))
}
