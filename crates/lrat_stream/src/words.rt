//! The words of a step line, one after another.
ghost use Rattle.std.specs.Prelude.{◌≡◌, ◌≤◌, ◌∷◌, [], ℕ, ℤ, None, Option, List, IfSome, OnErr, OnOk};
ghost use Rattle.lrat_model.specs.Literal.{Literal};
ghost use Rattle.lrat_model.specs.Steps.{Database};
ghost use Rattle.lrat_model.specs.Rules.{addition_fault_by};
ghost use Rattle.lrat_model.specs.declared.step.Rule.{Rule};
ghost use Rattle.lrat_model.specs.declared.step.StepFault.{StepFault};
ghost use Rattle.lrat_checker.specs.Adding.{Adding};
ghost use Rattle.lrat_text.specs.Words.{Word};
ghost use Rattle.lrat_text.specs.Lines.{after_id, closed_list, step_of_words};
ghost use Rattle.lrat_text.specs.Numbers.{hint_in};
ghost use Rattle.lrat_stream.specs.Outline.{outline_in};
ghost use Rattle.lrat_stream.specs.declared.words.TheConstants.{MOST_HINTS};
ghost use Rattle.lrat_stream.specs.Ahead.{ahead, ahead_at, added, fault_then, addition_from, deletion_from, IsOpen, IsClear, FitsAt, Fits};
ghost use Rattle.lrat_stream.specs.Wants.{IsSound, LiteralWants, HintWants, IdWants, WantsMemory};

use crate::spelled::SpelledWord;
use lrat_checker::Checker;
use lrat_model::{Lit, StepFault};
use std::alloc::{AllocError, Global};

/// How many hints an addition may have before want of memory is answered: none that was ever written has.
pub const MOST_HINTS: u64 = 1_000_000_000_000;

/// How far a step line is read, and so which word comes next. From the id on, that stands here.
#[derive(Clone, Copy)]
pub enum Stage {
    /// No word came yet.
    Start,
    /// The id came.
    Numbered(u64),
    /// A literal comes next, or the 0 after the last.
    Literals(u64),
    /// A hint comes next, or the 0 after the last.
    Hints(u64),
    /// An addition is complete.
    Added(u64),
    /// An id of a deletion comes next, or the 0 after the last.
    Ids(u64),
    /// A deletion is complete.
    Deleted(u64),
    /// The line is none of a step.
    Bad,
}

/// What is kept of the words of a step line: of an addition the literals and the first fault, of a deletion the ids.
#[derive(Drop)]
pub struct StepWords {
    pub stage: Stage,
    pub lits: Vec<Lit>,
    pub ids: Vec<u64>,
    pub fault: Option<StepFault>,
}

impl StepWords {
    /// Before the first word of a line. Takes no memory.
    pub fn new(alloc: Global) -> StepWords
        ensures stage { result.stage ≡ Stage.Start }
        ensures lits { result.lits.items ≡ [] }
        ensures ids { result.ids.items ≡ [] }
        ensures fault { result.fault ≡ None }
    {
        StepWords {
            stage: Stage::Start,
            lits: Vec::new(alloc),
            ids: Vec::new(alloc),
            fault: None,
        }
    }

    /// Before the first word of another line. What memory there is stays.
    pub fn restart(&mut self)
        ensures stage { self.new.stage ≡ Stage.Start }
        ensures lits { self.new.lits.items ≡ [] }
        ensures ids { self.new.ids.items ≡ [] }
        ensures fault { self.new.fault ≡ None }
    {
        self.stage = Stage::Start;
        self.lits.clear();
        self.ids.clear();
        self.fault = None;
    }

    /// Takes a word of the line. Wants memory only for a literal, for an id of a deletion, for the 0 after literals that have no
    /// fault, under an id above the last, and for a hint after 10^12 of an addition that has no fault so far. O(its bytes), and
    /// what the checker does with a hint or with the literals.
    pub fn word(&mut self, checker: &mut Checker, word: &SpelledWord<'_>) -> Result<(), AllocError>
        requires { Fits self.old checker.old.open_addition }
        ensures fits { OnOk result (Fits self.new checker.new.open_addition) }
        ensures ahead { OnOk result ((rest : List Word) → ahead checker.old.rule checker.old.vars checker.old.database self.old checker.old.open_addition (word.now ∷ rest) ≡ ahead checker.old.rule checker.old.vars checker.old.database self.new checker.new.open_addition rest) }
        ensures memory { OnErr result (WantsMemory checker.old.vars checker.old.database self.old checker.old.open_addition word.now) }
        ensures database { checker.new.database ≡ checker.old.database }
        ensures rule { checker.new.rule ≡ checker.old.rule }
        ensures vars { checker.new.vars ≡ checker.old.vars }
    {
        match self.stage {
            Stage::Start => {
                self.stage = after_start(word);
                Ok(())
            }
            Stage::Numbered(id) => self.numbered(checker, id, word),
            Stage::Literals(id) => self.literal(checker, id, word),
            Stage::Hints(id) => self.hint(checker, id, word),
            Stage::Ids(id) => self.listed(id, word),
            Stage::Added(_) | Stage::Deleted(_) | Stage::Bad => {
                self.stage = Stage::Bad;
                Ok(())
            }
        }
    }

    /// The word after the id: `d` begins a deletion.
    fn numbered(
        &mut self,
        checker: &mut Checker,
        id: u64,
        word: &SpelledWord<'_>,
    ) -> Result<(), AllocError>
        requires clear { IsClear self.old.fault checker.old.open_addition }
        requires lits { self.old.lits.items ≡ [] }
        requires ids { self.old.ids.items ≡ [] }
        ensures fits { OnOk result (Fits self.new checker.new.open_addition) }
        ensures ahead { OnOk result ((rest : List Word) → outline_in checker.old.rule checker.old.vars checker.old.database (after_id id (word.now ∷ rest)) ≡ ahead checker.old.rule checker.old.vars checker.old.database self.new checker.new.open_addition rest) }
        ensures memory { OnErr result (LiteralWants checker.old.vars checker.old.database id self.old.lits.items word.now) }
        ensures database { checker.new.database ≡ checker.old.database }
        ensures rule { checker.new.rule ≡ checker.old.rule }
        ensures vars { checker.new.vars ≡ checker.old.vars }
    {
        if word.is_mark() {
            self.stage = Stage::Ids(id);
            return Ok(());
        }
        self.literal(checker, id, word)
    }

    /// A literal, or the 0 after the last one, with which the addition begins.
    fn literal(
        &mut self,
        checker: &mut Checker,
        id: u64,
        word: &SpelledWord<'_>,
    ) -> Result<(), AllocError>
        requires { IsClear self.old.fault checker.old.open_addition }
        ensures fits { OnOk result (Fits self.new checker.new.open_addition) }
        ensures ahead { OnOk result ((rest : List Word) → outline_in checker.old.rule checker.old.vars checker.old.database (addition_from id self.old.lits.items (word.now ∷ rest)) ≡ ahead checker.old.rule checker.old.vars checker.old.database self.new checker.new.open_addition rest) }
        ensures memory { OnErr result (LiteralWants checker.old.vars checker.old.database id self.old.lits.items word.now) }
        ensures database { checker.new.database ≡ checker.old.database }
        ensures rule { checker.new.rule ≡ checker.old.rule }
        ensures vars { checker.new.vars ≡ checker.old.vars }
    {
        if word.is_zero() {
            self.stage = Stage::Hints(id);
            return self.begin(checker, id);
        }
        match word.literal() {
            Some(l) => {
                self.stage = Stage::Literals(id);
                self.lits.push(l)?;
                Ok(())
            }
            None => {
                self.stage = Stage::Bad;
                Ok(())
            }
        }
    }

    /// Begins the addition, and keeps its fault if it has one.
    fn begin(&mut self, checker: &mut Checker, id: u64) -> Result<(), AllocError>
        requires { IsClear self.old.fault checker.old.open_addition }
        ensures opened { OnOk result (IsOpen id self.old.lits.items self.new.fault checker.new.open_addition) }
        ensures fault { OnOk result ((hints : List ℤ) → fault_then checker.old.rule checker.old.database.held self.new.fault checker.new.open_addition hints ≡ addition_fault_by checker.old.rule checker.old.vars checker.old.database id self.old.lits.items hints) }
        ensures stage { self.new.stage ≡ self.old.stage }
        ensures lits { self.new.lits ≡ self.old.lits }
        ensures ids { self.new.ids ≡ self.old.ids }
        ensures memory { OnErr result (IsSound checker.old.vars checker.old.database id self.old.lits.items) }
        ensures database { checker.new.database ≡ checker.old.database }
        ensures rule { checker.new.rule ≡ checker.old.rule }
        ensures vars { checker.new.vars ≡ checker.old.vars }
    {
        match checker.begin_add(id, &self.lits) {
            Ok(()) => Ok(()),
            Err(StepFault::Memory) => Err(AllocError),
            Err(fault) => {
                self.fault = Some(fault);
                Ok(())
            }
        }
    }

    /// A hint, or the 0 after the last one.
    fn hint(
        &mut self,
        checker: &mut Checker,
        id: u64,
        word: &SpelledWord<'_>,
    ) -> Result<(), AllocError>
        requires { IsOpen id self.old.lits.items self.old.fault checker.old.open_addition }
        ensures fits { OnOk result (Fits self.new checker.new.open_addition) }
        ensures ahead { OnOk result ((rest : List Word) → added id self.old.lits.items (fault_then checker.old.rule checker.old.database.held self.old.fault checker.old.open_addition) (closed_list hint_in (word.now ∷ rest)) ≡ ahead checker.old.rule checker.old.vars checker.old.database self.new checker.new.open_addition rest) }
        ensures memory { OnErr result (HintWants self.old.fault checker.old.open_addition word.now) }
        ensures database { checker.new.database ≡ checker.old.database }
        ensures rule { checker.new.rule ≡ checker.old.rule }
        ensures vars { checker.new.vars ≡ checker.old.vars }
    {
        if word.is_zero() {
            self.stage = Stage::Added(id);
            return Ok(());
        }
        let Some(hint) = word.hint() else {
            self.stage = Stage::Bad;
            return Ok(());
        };
        self.stage = Stage::Hints(id);
        self.take_hint(checker, hint)
    }

    /// Hands a hint to the checker, unless there was a fault, and keeps its fault if it has one.
    fn take_hint(&mut self, checker: &mut Checker, hint: i64) -> Result<(), AllocError>
        requires { (id : ℕ) × IsOpen id self.old.lits.items self.old.fault checker.old.open_addition }
        ensures opened { (id : ℕ) → IsOpen id self.old.lits.items self.old.fault checker.old.open_addition → OnOk result (IsOpen id self.new.lits.items self.new.fault checker.new.open_addition) }
        ensures fault { (id : ℕ) → IsOpen id self.old.lits.items self.old.fault checker.old.open_addition → OnOk result ((hints : List ℤ) → fault_then checker.old.rule checker.old.database.held self.old.fault checker.old.open_addition (hint ∷ hints) ≡ fault_then checker.old.rule checker.old.database.held self.new.fault checker.new.open_addition hints) }
        ensures memory { OnErr result ((self.old.fault ≡ None) × IfSome checker.old.open_addition (λ a. MOST_HINTS ≤ a.hints)) }
        ensures stage { self.new.stage ≡ self.old.stage }
        ensures lits { self.new.lits ≡ self.old.lits }
        ensures ids { self.new.ids ≡ self.old.ids }
        ensures database { checker.new.database ≡ checker.old.database }
        ensures rule { checker.new.rule ≡ checker.old.rule }
        ensures vars { checker.new.vars ≡ checker.old.vars }
    {
        if self.fault.is_some() {
            return Ok(());
        }
        if checker.hints() >= MOST_HINTS {
            return Err(AllocError);
        }
        match checker.hint(hint) {
            Ok(_) => Ok(()),
            Err(fault) => {
                self.fault = Some(fault);
                Ok(())
            }
        }
    }

    /// An id of a deletion, or the 0 after the last one.
    fn listed(&mut self, id: u64, word: &SpelledWord<'_>) -> Result<(), AllocError>
        ensures ahead { (rule : Rule) (vars : ℕ) (database : Database) (now : Option Adding) → OnOk result ((rest : List Word) → outline_in rule vars database (deletion_from id self.old.ids.items (word.now ∷ rest)) ≡ ahead rule vars database self.new now rest) }
        ensures fits { (now : Option Adding) → OnOk result (now ≡ None → Fits self.new now) }
        ensures memory { OnErr result (IdWants word.now) }
    {
        if word.is_zero() {
            self.stage = Stage::Deleted(id);
            return Ok(());
        }
        match word.id() {
            Some(other) => {
                self.stage = Stage::Ids(id);
                self.ids.push(other)?;
                Ok(())
            }
            None => {
                self.stage = Stage::Bad;
                Ok(())
            }
        }
    }
}

/// The stage after the first word.
fn after_start(word: &SpelledWord<'_>) -> Stage
    ensures fits { (lits : List Literal) (ids : List ℕ) (fault : Option StepFault) (now : Option Adding) → FitsAt Stage.Start lits ids fault now → FitsAt result lits ids fault now }
    ensures ahead { (rule : Rule) (vars : ℕ) (database : Database) (now : Option Adding) (rest : List Word) → outline_in rule vars database (step_of_words (word.now ∷ rest)) ≡ ahead_at result rule vars database [] [] None now rest }
{
    match word.id() {
        Some(id) => Stage::Numbered(id),
        None => Stage::Bad,
    }
}
