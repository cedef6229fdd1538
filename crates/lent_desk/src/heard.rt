//! Bytes that only proofs read. They take no memory, and nothing is done for them at run time.
ghost use Rattle.std.specs.Prelude.{◌≡◌, ◌++◌, ◌∷◌, [], ℕ, List};
ghost use Rattle.std.specs.Borrow.{ftrue};

use std::marker::Model;

/// All bytes of one place, in order, as proofs name them.
#[derive(Drop)]
pub struct Heard {
    pub ghost bytes: { List ℕ },
}

impl Model for Heard {
    ghost also_owns = { λ _. ftrue };
}

/// A byte that is heard.
#[derive(Clone, Copy)]
pub struct Byte {
    pub value: u8,
}

impl Heard {
    /// No bytes.
    pub fn new() -> Heard
        ensures { result.bytes ≡ [] }
    {
        Heard {}
    }

    // These bytes, and this one after them.
    fn with(_before: &Heard, _byte: &Byte) -> Heard
        ensures { result.bytes ≡ _before.now.bytes ++ _byte.now.value ∷ [] }
    {
        Heard {}
    }

    /// Hears the bytes, too.
    pub fn hear(&mut self, bytes: &[u8])
        ensures { self.new.bytes ≡ self.old.bytes ++ bytes.now }
    {
        for byte in bytes {
            let next = Byte { value: *byte };
            *self = Heard::with(self, &next);
        }
    }
}
