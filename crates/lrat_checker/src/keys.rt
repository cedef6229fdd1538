//! Numbers for literals and for lists of them: what the index of subsets goes by.
ghost use Rattle.std.specs.Prelude.{◌≡◌, ◌<◌, length};
ghost use Rattle.lrat_checker.specs.Keys.{code_of, bit_of, signature_of, slot_of};

use lrat_model::Lit;

/// An odd number that spreads codes.
const SPREAD: u64 = 11_400_714_819_323_198_485;

/// A literal as a number.
pub fn code_of(l: Lit) -> u64
    ensures { result ≡ code_of l }
{
    let twice = 2 * u64::from(l.variable());
    if l.number() > 0 { twice } else { twice + 1 }
}

/// One of 64 bits for a literal.
pub fn bit_of(l: Lit) -> u64
    ensures { result ≡ bit_of l }
{
    1 << (code_of(l).wrapping_mul(SPREAD) >> 58)
}

/// The bits of the literals.
pub fn signature_of(lits: &[Lit]) -> u64
    ensures { result ≡ signature_of lits.now }
{
    lits.iter().fold(0, |bits, l| bits | bit_of(*l))
}

/// The slot of a code.
pub fn slot_of(slots: usize, code: u64) -> usize
    requires { 0 < slots }
    ensures value { result ≡ slot_of slots code }
    ensures within { result < slots }
{
    code as usize % slots
}
