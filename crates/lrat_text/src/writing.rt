//! Steps to lines.
ghost use Rattle.std.specs.Prelude.{◌≡◌, ◌≤◌, ◌++◌, List, [], ◌∷◌, drop, length, Ok, None, All};
ghost use Rattle.std.specs.Option.{option_to_list};
ghost use Rattle.std.specs.Iterator.{YieldsFirst, item_count};
ghost use Rattle.std.specs.Fmt.{decimal, signed_decimal};
ghost use Rattle.lrat_model.specs.Steps.{step_of};
ghost use Rattle.lrat_text.specs.Texts.{line_of, HasNumbers, IsLiteral};
ghost use Rattle.lrat_text.specs.Lines.{step_in};
ghost use Rattle.lrat_text.specs.Lent.{lent_step};
ghost use Rattle.lrat_text.specs.Left.{words_left};

use crate::lent::{HintsRef, StepRef};
use itoa::write_digits;
use lrat_model::{Lit, Step};
use std::marker::Model;

/// The line of a step, without a line feed: its words with one space between them. Takes no memory.
///
/// The bytes come from `next` in constant time each, a number in time linear in its digits.
pub fn write_step(step: &Step) -> StepBytes<'_>
    requires { HasNumbers (step_of step.now) }
    ensures line { result ≡ line_of (step_of step.now) }
    ensures read_back { step_in result ≡ Ok (step_of step.now) }
{
    write_lent(StepRef::of(step))
}

/// The line of a step that is borrowed, as `write_step` makes it.
pub fn write_lent(step: StepRef<'_>) -> StepBytes<'_>
    requires { HasNumbers (lent_step step) }
    ensures line { result ≡ line_of (lent_step step.entry) }
    ensures read_back { step_in result ≡ Ok (lent_step step.entry) }
{
    match step {
        StepRef::Add { id, lits, hints } => {
            look_at(lits);
            StepBytes {
                word: Digits::natural(id),
                left: Left::Literals(lits, hints),
            }
        }
        StepRef::Delete { id, ids } => StepBytes {
            word: Digits::natural(id),
            left: Left::Mark(ids),
        },
    }
}

/// Each literal has a variable in range, as a look at it tells.
fn look_at(lits: &[Lit])
    ensures { All IsLiteral lits.now }
{
    for l in lits {
        l.variable();
    }
}

/// The bytes of a step's line that are left.
#[derive(Drop)]
pub struct StepBytes<'a> {
    word: Digits,
    left: Left<'a>,
}

impl<'a> Model for StepBytes<'a> {
    ghost use Rattle.std.specs.Prelude.{ℕ, List, ◌++◌};
    ghost use Rattle.lrat_text.specs.Left.{words_left, spaced};

    ghost Value = { List ℕ };

    ghost view = { λ b. b.word ++ spaced (words_left b.left) };
}

impl<'a> Iterator for StepBytes<'a> {
    type Item = u8;

    ghost next_gives = { YieldsFirst (λ s. s) };

    ghost remaining = { item_count (λ s. s) };

    fn next(&mut self) -> Option<u8> {
        if let Some(byte) = self.word.next() {
            return Some(byte);
        }
        self.word = self.left.next_word()?;
        Some(b' ')
    }
}

/// What comes after the word that is being written.
#[derive(Drop)]
enum Left<'a> {
    Literals(&'a [Lit], HintsRef<'a>),
    Hints(HintsRef<'a>),
    Mark(&'a [u64]),
    Ids(&'a [u64]),
    Nothing,
}

impl<'a> Left<'a> {
    /// Takes the next word.
    fn next_word(&mut self) -> Option<Digits>
        ensures front { words_left self.old ≡ option_to_list result ++ words_left self.new }
        ensures done { result ≡ None → words_left self.old ≡ [] }
    {
        let (word, left) = match *self {
            Left::Literals([], hints) => (Digits::byte(b'0'), Left::Hints(hints)),
            Left::Literals([l, lits @ ..], hints) => {
                (
                    Digits::integer(i64::from(l.number())),
                    Left::Literals(lits, hints),
                )
            }
            Left::Hints(HintsRef::Short([]) | HintsRef::Wide([])) => {
                (Digits::byte(b'0'), Left::Nothing)
            }
            Left::Hints(HintsRef::Short([id, ids @ ..])) => (
                Digits::natural(u64::from(*id)),
                Left::Hints(HintsRef::Short(ids)),
            ),
            Left::Hints(HintsRef::Wide([hint, hints @ ..])) => {
                (Digits::integer(*hint), Left::Hints(HintsRef::Wide(hints)))
            }
            Left::Mark(ids) => (Digits::byte(b'd'), Left::Ids(ids)),
            Left::Ids([]) => (Digits::byte(b'0'), Left::Nothing),
            Left::Ids([id, ids @ ..]) => (Digits::natural(*id), Left::Ids(ids)),
            Left::Nothing => return None,
        };
        *self = left;
        Some(word)
    }
}

/// Bytes that a word may have: a `-` and 20 digits.
const WORD: usize = 21;

/// The bytes of a word that are left.
#[derive(Drop)]
struct Digits {
    bytes: [u8; WORD],
    at: usize,
}

impl Model for Digits {
    ghost use Rattle.std.specs.Prelude.{ℕ, List, drop, ◌≤◌};

    ghost Value = { List ℕ };

    ghost view = { λ d. drop d.at d.bytes };

    ghost invariant = { λ d. d.at ≤ 21 };
}

impl Digits {
    /// The digits of a number.
    fn natural(number: u64) -> Digits
        ensures digits { result ≡ decimal number }
        ensures short { length result ≤ 20 }
    {
        let mut bytes = [0; WORD];
        let at = write_digits(number, &mut bytes, WORD);
        Digits { bytes, at }
    }

    /// The digits of a number, with a `-` before them where it is negative.
    fn integer(number: i64) -> Digits
        ensures { result ≡ signed_decimal number }
    {
        let digits = Digits::natural(number.unsigned_abs());
        if number < 0 {
            digits.with_minus()
        } else {
            digits
        }
    }

    fn with_minus(mut self) -> Digits
        requires { length self ≤ 20 }
        ensures { result ≡ 45 ∷ self }
    {
        self.at -= 1;
        self.bytes[self.at] = b'-';
        self
    }

    /// A word of one byte.
    fn byte(byte: u8) -> Digits
        ensures { result ≡ byte ∷ [] }
    {
        Digits {
            bytes: [byte; WORD],
            at: WORD - 1,
        }
    }

    fn next(&mut self) -> Option<u8>
        ensures front { self.old ≡ option_to_list result ++ self.new }
        ensures done { result ≡ None → self.old ≡ [] }
    {
        let byte = *self.bytes.get(self.at)?;
        self.at += 1;
        Some(byte)
    }
}
