//! The words of a question, with a zero byte between two.
ghost use Rattle.std.specs.Prelude.{◌≡◌, ◌++◌, ◌∷◌, [], map, All, codes, string_bytes, IfOk, OnOk, Err};
ghost use Rattle.std.specs.List.{slice_split};
ghost use Rattle.std.specs.Str.{IsUtf8};
ghost use Rattle.request_reading.specs.Answers.{words_of};
ghost use Rattle.quorum_answers.specs.Answering.{words_in, program};

use std::alloc::{AllocError, Global};
use std::str::from_utf8;

/// Why words could not be taken.
#[derive(Clone, Copy, Debug, PartialEq, Eq)]
pub enum Unread {
    /// A word is not UTF-8.
    NotText,
    /// Memory ran out.
    Memory,
}

// Puts the word after the others.
fn push_word(alloc: Global, words: &mut Vec<String>, word: &str) -> Result<(), AllocError>
    ensures { OnOk result (words_of words.new.items ≡ words_of words.old.items ++ word.now ∷ []) }
{
    words.push(String::from_str(alloc, word)?)?;
    Ok(())
}

// Puts the bytes after the words.
fn push_bytes(alloc: Global, words: &mut Vec<String>, bytes: &[u8]) -> Result<(), Unread>
    ensures pushed { OnOk result (words_of words.new.items ≡ words_of words.old.items ++ bytes.now ∷ []) }
    ensures text { OnOk result (IsUtf8 bytes.now) }
    ensures refused { result ≡ Err Unread.NotText → IsUtf8 bytes.now → ⊥ }
{
    let Ok(word) = from_utf8(bytes) else {
        return Err(Unread::NotText);
    };
    match push_word(alloc, words, word) {
        Ok(()) => Ok(()),
        Err(AllocError) => Err(Unread::Memory),
    }
}

// The words of the program's name alone.
fn named(alloc: Global) -> Result<Vec<String>, Unread>
    ensures ok { IfOk result (λ words. words_of words.items ≡ program ∷ []) }
    ensures memory { result ≡ Err Unread.NotText → ⊥ }
{
    let mut words = Vec::new(alloc);
    match push_word(alloc, &mut words, "quorum_cli") {
        Ok(()) => Ok(words),
        Err(AllocError) => Err(Unread::Memory),
    }
}

/// The program's name and the words, if each is UTF-8.
pub fn words(alloc: Global, text: &[u8]) -> Result<Vec<String>, Unread>
    ensures ok { IfOk result (λ words. words_of words.items ≡ program ∷ words_in text.now) }
    ensures text { OnOk result (All IsUtf8 (words_in text.now)) }
    ensures refused { result ≡ Err Unread.NotText → All IsUtf8 (words_in text.now) → ⊥ }
{
    let mut words = named(alloc)?;
    for word in text.split(|byte| *byte == 0) {
        push_bytes(alloc, &mut words, word)?;
    }
    Ok(words)
}
