//! The numbers of a step line.
ghost use Rattle.std.specs.Prelude.{◌≡◌, ◌<◌, ◌≤◌, ℕ, List, Option, IfSome};
ghost use Rattle.lrat_text.specs.Numbers.{digits_in, positive_in, IsSigned, id_in, hint_in, literal_in};

use lrat_model::Lit;

/// The greatest id, and the greatest magnitude of a hint.
pub const MOST_ID: u64 = 9_223_372_036_854_775_807;

/// The greatest number after which one more digit may give a number that is not above the greatest id.
pub const MOST_TENTH: u64 = 922_337_203_685_477_580;

/// The greatest variable.
pub const MOST_VARIABLE: u64 = 2_147_483_647;

/// A number that stands in a list of a step line.
pub trait Number: Copy {
    /// The number that a word says.
    ghost number_in: { List ℕ → Option Self };

    /// The number that a word says, if it is one and in range. In time linear in the word.
    fn read(word: &[u8]) -> Option<Self>
        ensures { result ≡ number_in word.now };
}

impl Number for u64 {
    ghost number_in = { id_in };

    fn read(word: &[u8]) -> Option<u64> {
        read_id(word)
    }
}

impl Number for i64 {
    ghost number_in = { hint_in };

    fn read(word: &[u8]) -> Option<i64> {
        read_hint(word)
    }
}

impl Number for Lit {
    ghost number_in = { literal_in };

    fn read(word: &[u8]) -> Option<Lit> {
        read_literal(word)
    }
}

/// The id that a word says: a number from 1 to 2^63 - 1, in decimal digits without a leading zero. None for any other word.
/// In time linear in the word.
pub fn read_id(word: &[u8]) -> Option<u64>
    ensures { result ≡ id_in word.now }
{
    positive(word, MOST_ID)
}

/// The hint that a word says: an id, or its negation with a `-` before it. None for any other word. In time linear in the word.
pub fn read_hint(word: &[u8]) -> Option<i64>
    ensures { result ≡ hint_in word.now }
{
    let (is_negative, digits) = sign(word);
    let number = positive(digits, MOST_ID)? as i64;
    Some(if is_negative { -number } else { number })
}

/// The literal that a word says: a variable from 1 to 2^31 - 1, with a `-` before it where it is negated. None for any other
/// word. In time linear in the word.
pub fn read_literal(word: &[u8]) -> Option<Lit>
    ensures { result ≡ literal_in word.now }
{
    let (is_negative, digits) = sign(word);
    let variable = positive(digits, MOST_VARIABLE)? as u32;
    Some(if is_negative {
        Lit::negative(variable)
    } else {
        Lit::positive(variable)
    })
}

/// Whether a `-` comes first, and what follows it.
fn sign(word: &[u8]) -> (bool, &[u8])
    ensures { IsSigned word.now result.0 result.1.now }
{
    match word.split_first() {
        Some((b'-', digits)) => (true, digits),
        _ => (false, word),
    }
}

/// The number that digits say, if the first is not 0 and the number is not above this one: in one pass.
fn positive(word: &[u8], most: u64) -> Option<u64>
    requires { most ≤ MOST_ID }
    ensures value { result ≡ positive_in most word.now }
    ensures range { IfSome result (λ number. (0 < number) × (number ≤ most)) }
{
    match word.first() {
        Some(first) if *first > b'0' => digits(word, most),
        _ => None,
    }
}

/// The number that digits say, if it is not above this one. The value is kept and the digits are looked at together.
fn digits(word: &[u8], most: u64) -> Option<u64>
    requires { most ≤ MOST_ID }
    ensures value { result ≡ digits_in most word.now }
    ensures range { IfSome result (λ number. number ≤ most) }
{
    let mut number: u64 = 0;
    for byte in word {
        if !byte.is_ascii_digit() {
            return None;
        }
        if number > MOST_TENTH {
            return None;
        }
        number = number * 10 + u64::from(*byte - b'0');
    }
    if number <= most { Some(number) } else { None }
}
