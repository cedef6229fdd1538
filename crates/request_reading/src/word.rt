//! A word of the command line: a path or a name.
ghost use Rattle.std.specs.Prelude.{◌≡◌, [], IfOk, option_map, string_bytes, unwrap_or};

use std::alloc::{AllocError, Global};
use std::marker::Model;

/// A word of the command line, seen as its bytes.
#[derive(Drop)]
pub struct Word {
    text: String,
}

impl Model for Word {
    ghost use Rattle.std.specs.Prelude.{ℕ, List, string_bytes};

    ghost Value = { List ℕ };

    ghost view = { λ w. string_bytes w.text };
}

impl Word {
    ghost use Rattle.std.specs.Prelude.{◌≡◌, IfOk};

    pub fn of(alloc: Global, text: &str) -> Result<Word, AllocError>
        ensures { IfOk result (λ word. word ≡ text.now) }
    {
        Ok(Word {
            text: String::from_str(alloc, text)?,
        })
    }

    pub fn as_str(&self) -> &str
        ensures { result.now ≡ self.now }
    {
        self.text.as_str()
    }
}

/// The word that an option gives, empty where it is not given.
pub fn word_or_empty(word: &Option<String>) -> &str
    ensures { result.now ≡ unwrap_or (option_map string_bytes word.now) [] }
{
    match word {
        Some(word) => word.as_str(),
        None => "",
    }
}

/// The word of an option, if it is given.
pub fn word_if_any(alloc: Global, word: &Option<String>) -> Result<Option<Word>, AllocError>
    ensures { IfOk result (λ w. w ≡ option_map string_bytes word.now) }
{
    match word {
        Some(word) => Ok(Some(Word::of(alloc, word)?)),
        None => Ok(None),
    }
}
