//! Certificates of worked cases. The digests are those of `sha256sum`.

/// A pair of two of three, a being faulty.
pub const PAIR_OF_THREE: &str =
    "fbas-cert 1\nconfig f823e204944abcff32c8dadffba2a0178a590a613358f9a6f271b651cd4e6fbb\nfrom\nfaulty a\nkind pair\nfirst b\nsecond c\nend\n";

/// A refutation of two of two.
pub const REFUTATION_OF_TWO: &str =
    "fbas-cert 1\nconfig d5ccec4a141b4b11eb0b80bb62d235f24e373c62aa2fa9f6fb33f6b1e2871f41\nfrom\nfaulty\nkind refutation\nformula 8 16\n17 -1 0 7 6 3 4 2 0\n18 0 17 1 10 8 0\nend\n";

/// The same with a bad last word behind the fault of a hint.
pub const BAD_WORD_OF_TWO: &str =
    "fbas-cert 1\nconfig d5ccec4a141b4b11eb0b80bb62d235f24e373c62aa2fa9f6fb33f6b1e2871f41\nfrom\nfaulty\nkind refutation\nformula 8 16\n17 -1 0 6 7 3 4 2 x\n18 0 17 1 10 8 0\nend\n";
