//! The parts of a step line, one after another.
ghost use Rattle.std.specs.Prelude.{◌≡◌, ◌⊎◌, ◌++◌, List, ℕ, [], OnOk, IfOk};
ghost use Rattle.lrat_text.specs.Words.{Word, words_of};
ghost use Rattle.lrat_stream.specs.Ahead.{ahead, Fits};
ghost use Rattle.lrat_stream.specs.Solid.{IsSolid};
ghost use Rattle.lrat_stream.specs.declared.words.Stage.TheVariants.{Start};

use crate::spelled::SpelledWords;
use crate::words::StepWords;
use lrat_checker::Checker;
use lrat_text::{blank_end, word_len};
use std::alloc::{AllocError, Global};

/// A step line that is being read: what is kept of its words, and the bytes of a word whose end has not come.
#[derive(Drop)]
pub struct StepReader {
    pub words: StepWords,
    pub begun: Vec<u8>,
}

impl StepReader {
    /// Before the first line. Takes no memory.
    pub fn new(alloc: Global) -> StepReader {
        StepReader {
            words: StepWords::new(alloc),
            begun: Vec::new(alloc),
        }
    }

    /// Before another line. What memory there is stays.
    pub fn restart(&mut self)
        ensures stage { self.new.words.stage ≡ Start }
        ensures lits { self.new.words.lits.items ≡ [] }
        ensures ids { self.new.words.ids.items ≡ [] }
        ensures fault { self.new.words.fault ≡ None }
        ensures begun { self.new.begun.items ≡ [] }
    {
        self.words.restart();
        self.begun.clear();
    }

    /// Takes a part of the line after those before. A word whose end does not come in it is kept.
    /// O(bytes), and what the checker does with the literals and hints.
    pub fn part(&mut self, checker: &mut Checker, part: &[u8]) -> Result<(), AllocError>
        requires fits { Fits self.old.words checker.old.open_addition }
        requires solid { IsSolid self.old.begun.items }
        ensures fits { OnOk result (Fits self.new.words checker.new.open_addition) }
        ensures solid { OnOk result (IsSolid self.new.begun.items) }
        ensures ahead { OnOk result ((more : List ℕ) → ahead checker.old.rule checker.old.vars checker.old.database self.old.words checker.old.open_addition (words_of (self.old.begun.items ++ (part.now ++ more)))
            ≡ ahead checker.old.rule checker.old.vars checker.old.database self.new.words checker.new.open_addition (words_of (self.new.begun.items ++ more))) }
        ensures database { checker.new.database ≡ checker.old.database }
        ensures rule { checker.new.rule ≡ checker.old.rule }
        ensures vars { checker.new.vars ≡ checker.old.vars }
    {
        let rest = self.join(checker, part)?;
        let (whole, begun) = rest.split_at(blank_end(rest));
        take_words(&mut self.words, checker, &mut SpelledWords::of(whole))?;
        self.begun.extend_from_slice(begun)
    }

    /// Takes the last part of the line.
    pub fn last(&mut self, checker: &mut Checker, part: &[u8]) -> Result<(), AllocError>
        requires fits { Fits self.old.words checker.old.open_addition }
        requires solid { IsSolid self.old.begun.items }
        ensures fits { OnOk result (Fits self.new.words checker.new.open_addition) }
        ensures ahead { OnOk result (ahead checker.old.rule checker.old.vars checker.old.database self.old.words checker.old.open_addition (words_of (self.old.begun.items ++ part.now))
            ≡ ahead checker.old.rule checker.old.vars checker.old.database self.new.words checker.new.open_addition []) }
        ensures database { checker.new.database ≡ checker.old.database }
        ensures rule { checker.new.rule ≡ checker.old.rule }
        ensures vars { checker.new.vars ≡ checker.old.vars }
    {
        let rest = self.join(checker, part)?;
        self.end_word(checker)?;
        take_words(&mut self.words, checker, &mut SpelledWords::of(rest))
    }

    /// Puts the end of the word that is begun after it, if there is one, and takes it where a blank follows. Gives what is
    /// left of the part.
    fn join<'a>(&mut self, checker: &mut Checker, part: &'a [u8]) -> Result<&'a [u8], AllocError>
        requires fits { Fits self.old.words checker.old.open_addition }
        requires solid { IsSolid self.old.begun.items }
        ensures fits { OnOk result (Fits self.new.words checker.new.open_addition) }
        ensures solid { OnOk result (IsSolid self.new.begun.items) }
        ensures ahead { IfOk result (λ rest. (more : List ℕ) → ahead checker.old.rule checker.old.vars checker.old.database self.old.words checker.old.open_addition (words_of (self.old.begun.items ++ (part.now ++ more)))
            ≡ ahead checker.old.rule checker.old.vars checker.old.database self.new.words checker.new.open_addition (words_of (self.new.begun.items ++ (rest.now ++ more)))) }
        ensures one { IfOk result (λ rest. (self.new.begun.items ≡ []) ⊎ (rest.now ≡ [])) }
        ensures database { checker.new.database ≡ checker.old.database }
        ensures rule { checker.new.rule ≡ checker.old.rule }
        ensures vars { checker.new.vars ≡ checker.old.vars }
    {
        if self.begun.is_empty() {
            return Ok(part);
        }
        let (end, rest) = part.split_at(word_len(part));
        self.begun.extend_from_slice(end)?;
        if !rest.is_empty() {
            self.end_word(checker)?;
        }
        Ok(rest)
    }

    /// Takes the word that is begun, if there is one.
    fn end_word(&mut self, checker: &mut Checker) -> Result<(), AllocError>
        requires fits { Fits self.old.words checker.old.open_addition }
        requires solid { IsSolid self.old.begun.items }
        ensures fits { OnOk result (Fits self.new.words checker.new.open_addition) }
        ensures begun { OnOk result (self.new.begun.items ≡ []) }
        ensures ahead { OnOk result ((rest : List Word) → ahead checker.old.rule checker.old.vars checker.old.database self.old.words checker.old.open_addition (words_of self.old.begun.items ++ rest)
            ≡ ahead checker.old.rule checker.old.vars checker.old.database self.new.words checker.new.open_addition rest) }
        ensures database { checker.new.database ≡ checker.old.database }
        ensures rule { checker.new.rule ≡ checker.old.rule }
        ensures vars { checker.new.vars ≡ checker.old.vars }
    {
        if self.begun.is_empty() {
            return Ok(());
        }
        take_words(&mut self.words, checker, &mut SpelledWords::of(&self.begun))?;
        self.begun.clear();
        Ok(())
    }
}

/// Takes the words that are left.
fn take_words(
    reader: &mut StepWords,
    checker: &mut Checker,
    words: &mut SpelledWords<'_>,
) -> Result<(), AllocError>
    requires { Fits reader.old checker.old.open_addition }
    ensures fits { OnOk result (Fits reader.new checker.new.open_addition) }
    ensures ahead { OnOk result ((rest : List Word) → ahead checker.old.rule checker.old.vars checker.old.database reader.old checker.old.open_addition (words.old ++ rest)
        ≡ ahead checker.old.rule checker.old.vars checker.old.database reader.new checker.new.open_addition rest) }
    ensures database { checker.new.database ≡ checker.old.database }
    ensures rule { checker.new.rule ≡ checker.old.rule }
    ensures vars { checker.new.vars ≡ checker.old.vars }
{
    while let Some(word) = words.next() {
        reader.word(checker, &word)?;
    }
    Ok(())
}
