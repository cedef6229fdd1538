//! The numbers of the command line.
ghost use Rattle.std.specs.Prelude.{◌≡◌, ◌≤◌, IfSome};
ghost use Rattle.std.specs.List.{list_all};
ghost use Rattle.std.specs.Char.{is_ascii_digit};
ghost use Rattle.cli_words.specs.Numbers.{is_number as spec_is_number, number_between as spec_number_between};

fn has_digits(text: &[u8]) -> bool
    ensures { result ≡ list_all is_ascii_digit text.now }
{
    text.iter().all(|byte| byte.is_ascii_digit())
}

fn is_number(text: &[u8]) -> bool
    ensures { result ≡ spec_is_number text.now }
{
    match text.first() {
        Some(first) => has_digits(text) && (*first > b'0' || text.len() == 1),
        None => false,
    }
}

/// The number that a text says, if it is one and lies between these bounds.
pub fn number_between(least: u64, most: u64, text: &str) -> Option<u64>
    ensures value { result ≡ spec_number_between least most text.now }
    ensures least { IfSome result (λ number. least ≤ number) }
    ensures most { IfSome result (λ number. number ≤ most) }
{
    if !is_number(text.as_bytes()) {
        return None;
    }
    match text.parse::<u64>() {
        Ok(number) if least <= number && number <= most => Some(number),
        _ => None,
    }
}
