//! The version of the formula that an order asks for.
ghost use Rattle.std.specs.Prelude.{◌≡◌};
ghost use Rattle.request_reading.specs.Formulas.{version_of as spec_version_of};

use clause_encoder::Version;
use cli_words::OLDEST_FORMULA;

/// The version of the formula by its number, of those that can be asked for.
pub fn version_of(number: u64) -> Version
    ensures { result ≡ spec_version_of number }
{
    if number == OLDEST_FORMULA {
        Version::Two
    } else {
        Version::Three
    }
}
