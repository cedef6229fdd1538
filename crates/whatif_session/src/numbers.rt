//! The numbers of a line.

ghost use Rattle.std.specs.Prelude.{◌≡◌, ◌≤◌, ◌^◌, min, true};
ghost use Rattle.std.specs.List.{list_all};
ghost use Rattle.std.specs.Char.{is_ascii_digit};
ghost use Rattle.std.specs.Str.Parse.{digits_value};
ghost use Rattle.whatif_session.specs.Lines.{is_number, threshold_in, place_in};

/// The greatest threshold that a line may say.
pub const MOST_THRESHOLD: u64 = u64::MAX;

/// The greatest place of an inner quorum set that is told from greater ones: no quorum set has as many.
pub const MOST_PLACE: u32 = u32::MAX;

fn has_digits(word: &[u8]) -> bool
    ensures { result ≡ list_all is_ascii_digit word.now }
{
    word.iter().all(|byte| byte.is_ascii_digit())
}

/// Whether the word is decimal digits, of which the first is 0 only where it stands alone.
pub(crate) fn is_number(word: &[u8]) -> bool
    ensures { result ≡ is_number word.now }
{
    match word.first() {
        Some(first) => has_digits(word) && (*first > b'0' || word.len() == 1),
        None => false,
    }
}

/// The number that digits say, or the most where theirs is greater.
fn capped(word: &[u8], most: u128) -> u128
    requires digits { list_all is_ascii_digit word.now ≡ true }
    requires few { most ≤ 2 ^ 64 }
    ensures { result ≡ min (digits_value 10 word.now) most }
{
    let mut number: u128 = 0;
    for byte in word {
        number = (number * 10 + u128::from(*byte - b'0')).min(most);
    }
    number
}

/// The threshold that a word says, or none.
pub(crate) fn read_threshold(word: &[u8]) -> Option<u64>
    ensures { result ≡ threshold_in word.now }
{
    if !is_number(word) {
        return None;
    }
    let most = u128::from(MOST_THRESHOLD);
    let number = capped(word, most + 1);
    if number > most {
        return None;
    }
    Some(number as u64)
}

/// The place that a number says.
pub(crate) fn read_place(word: &[u8]) -> u32
    requires { is_number word.now ≡ true }
    ensures { result ≡ place_in word.now }
{
    capped(word, u128::from(MOST_PLACE)) as u32
}
