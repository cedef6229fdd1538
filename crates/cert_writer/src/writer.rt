//! The writer.
ghost use Rattle.std.specs.Prelude.{◌≡◌, Bool, All, map, IfSome, if◌then◌else◌, slice_index_or, decimal, ◌+◌, ◌<◌, ◌≤◌, ◌++◌, [], ◌∷◌, true, false, length, take, IsTrue, IfOk, OnOk, IsErr, ◌↔◌, codes};
ghost use Rattle.std.specs.Fmt.{signed_decimal};
ghost use Rattle.desk_io.specs.State.{DeskState};
ghost use Rattle.desk_io.specs.Faults.{Faults};
ghost use Rattle.fbas_model.specs.Restriction.{kept};
ghost use Rattle.lrat_text.specs.Left.{spaced};
ghost use Rattle.fbas_model.specs.Nodes.{members};
ghost use Rattle.lrat_model.specs.Steps.{Addition, Deletion};
ghost use Rattle.lrat_text.specs.Lent.{lent_step, lent_hints};
ghost use Rattle.lrat_text.specs.Texts.{line_of, literal_text, HasNumbers};
ghost use Rattle.blocking_lists.specs.Lines.{journal_line_of};
ghost use Rattle.node_json.specs.Groups.{texts_of};
ghost use Rattle.cert_writer.specs.Texts.{joined, name_if_any, header_lines, pair_front, kind_line, log_front, set_line, journal_line, group_journal_line, list_front, least_front, group_front};
ghost use Rattle.clause_encoder.specs.NameCounter.{counter_vars};
ghost use Rattle.clause_encoder.specs.declared.limits.TheConstants.{MOST_VARS};
ghost use Rattle.cert_writer.specs.Listing.{CanBeLine};
ghost use Rattle.cert_writer.specs.Grouping.{CanBeGroupLine};
ghost use Rattle.cert_writer.specs.Content.{content_front, CanBeContent};
ghost use Rattle.cert_writer.specs.Writing.{Writes};

use crate::certified::Certified;
use crate::content::Content;
use blocking_lists::{Journal, Line};
use certificate_file::{Aim, Pair, aim_word};
use clause_encoder::counter_vars;
use desk_io::{Desk, To, WriteFailed, put_all};
use digest_text::digits;
use enumeration_journal::{ListKind, Listed};
use group_lists::GroupJournal;
use itoa::{Buffer, Integer};
use lrat_text::{HintsRef, Lit, Log, StepRef};
use name_set::{GROUP_WORDS, GroupSet, NODE_WORDS, Names, NodeWords};
use node_json::Groups;
use reach_kinds::{ReachKind, kind_word};
use std::alloc::{AllocError, Global};
use std::marker::Model;

/// Bytes that are put at once.
pub const BUFFER: usize = 65_536;

/// Writes a certificate through a buffer. After a put failed it puts nothing more.
#[derive(Drop)]
pub struct CertWriter {
    bytes: Vec<u8>,
    filled: usize,
    has_failed: bool,
}

impl Model for CertWriter {
    ghost use Rattle.std.specs.Prelude.{◌≡◌, ◌≤◌, length, take};
    ghost use Rattle.cert_writer.specs.Writing.{Pending};
    ghost use Rattle.cert_writer.specs.declared.writer.TheConstants.{BUFFER};

    ghost Value = { Pending };

    ghost view = { λ w. record { held = take w.filled w.bytes.items; failed = w.has_failed } };

    ghost invariant = { λ w. (w.filled ≤ BUFFER) × (length w.bytes.items ≡ BUFFER) };
}

impl CertWriter {
    /// Takes the buffer.
    pub fn start(alloc: Global) -> Result<CertWriter, AllocError>
        ensures held { IfOk result (λ w. w.held ≡ []) }
        ensures whole { IfOk result (λ w. w.failed ≡ false) }
    {
        Ok(CertWriter {
            bytes: vec![in alloc; 0u8; BUFFER]?,
            filled: 0,
            has_failed: false,
        })
    }

    /// Puts what the buffer holds.
    fn flush<D: Desk>(&mut self, desk: &mut D)
        ensures writes { Writes D.tells [] self.old (D.state desk.old) (D.faults desk.old) self.new (D.state desk.new) (D.faults desk.new) }
        ensures empty { self.new.failed ≡ false → self.new.held ≡ [] }
    {
        if self.has_failed {
            return;
        }
        match put_all(desk, To::Cert, &self.bytes[..self.filled]) {
            Ok(()) => self.filled = 0,
            Err(WriteFailed) => self.has_failed = true,
        }
    }

    /// Holds a byte, where there is room for it.
    fn hold(&mut self, byte: u8)
        requires { length self.old.held < BUFFER }
        ensures held { self.new.held ≡ self.old.held ++ byte ∷ [] }
        ensures failed { self.new.failed ≡ self.old.failed }
    {
        self.bytes[self.filled] = byte;
        self.filled += 1;
    }

    /// Puts what the buffer holds where it is full.
    fn make_room<D: Desk>(&mut self, desk: &mut D)
        ensures writes { Writes D.tells [] self.old (D.state desk.old) (D.faults desk.old) self.new (D.state desk.new) (D.faults desk.new) }
        ensures room { self.new.failed ≡ false → length self.new.held < BUFFER }
    {
        if self.filled == BUFFER {
            self.flush(desk);
        }
    }

    /// Holds a byte, where no put failed.
    fn keep(&mut self, byte: u8)
        requires { self.old.failed ≡ false → length self.old.held < BUFFER }
        ensures { (tells : Bool) (s : DeskState) (f : Faults) → Writes tells (byte ∷ []) self.old s f self.new s f }
    {
        if !self.has_failed {
            self.hold(byte);
        }
    }

    /// Writes a byte.
    fn byte<D: Desk>(&mut self, desk: &mut D, byte: u8)
        ensures { Writes D.tells (byte ∷ []) self.old (D.state desk.old) (D.faults desk.old) self.new (D.state desk.new) (D.faults desk.new) }
    {
        self.make_room(desk);
        self.keep(byte);
    }

    /// Holds some bytes, where there is room for all of them.
    fn hold_all(&mut self, text: &[u8])
        requires { length self.old.held + length text.now ≤ BUFFER }
        ensures held { self.new.held ≡ self.old.held ++ text.now }
        ensures failed { self.new.failed ≡ self.old.failed }
    {
        let end = self.filled + text.len();
        self.bytes[self.filled..end].copy_from_slice(text);
        self.filled = end;
    }

    /// Holds some bytes that there is room for, where no put failed.
    fn keep_all(&mut self, text: &[u8])
        requires { length self.old.held + length text.now ≤ BUFFER }
        ensures { (tells : Bool) (s : DeskState) (f : Faults) → Writes tells text.now self.old s f self.new s f }
    {
        if !self.has_failed {
            self.hold_all(text);
        }
    }

    /// Writes some bytes one by one.
    fn each_byte<D: Desk>(&mut self, desk: &mut D, text: &[u8])
        ensures { Writes D.tells text.now self.old (D.state desk.old) (D.faults desk.old) self.new (D.state desk.new) (D.faults desk.new) }
    {
        for byte in text {
            self.byte(desk, *byte);
        }
    }

    /// Writes some bytes: in one go where there is room for all of them.
    fn text<D: Desk>(&mut self, desk: &mut D, text: &[u8])
        ensures { Writes D.tells text.now self.old (D.state desk.old) (D.faults desk.old) self.new (D.state desk.new) (D.faults desk.new) }
    {
        if text.len() <= BUFFER - self.filled {
            self.keep_all(text);
        } else {
            self.each_byte(desk, text);
        }
    }

    /// Writes a space and a word.
    fn word<D: Desk>(&mut self, desk: &mut D, word: &[u8])
        ensures { Writes D.tells (32 ∷ word.now) self.old (D.state desk.old) (D.faults desk.old) self.new (D.state desk.new) (D.faults desk.new) }
    {
        self.byte(desk, b' ');
        self.text(desk, word);
    }

    /// Writes a space and a number.
    fn number<D: Desk>(&mut self, desk: &mut D, number: u64)
        ensures { Writes D.tells (32 ∷ decimal number) self.old (D.state desk.old) (D.faults desk.old) self.new (D.state desk.new) (D.faults desk.new) }
    {
        self.integer(desk, number);
    }

    /// Writes a space and a number of any type, with a minus where it is negative.
    fn integer<D: Desk, I: Integer>(&mut self, desk: &mut D, number: I)
        ensures { Writes D.tells (32 ∷ I.text number) self.old (D.state desk.old) (D.faults desk.old) self.new (D.state desk.new) (D.faults desk.new) }
    {
        let mut buffer = Buffer::new();
        self.word(desk, buffer.format(number).as_bytes());
    }

    /// Writes a space and a number for each of a list.
    fn integers<D: Desk, I: Integer>(&mut self, desk: &mut D, numbers: &[I])
        ensures { Writes D.tells (spaced (map I.text numbers.now)) self.old (D.state desk.old) (D.faults desk.old) self.new (D.state desk.new) (D.faults desk.new) }
    {
        for number in numbers {
            self.integer(desk, *number);
        }
    }

    /// Writes a space and a number for each literal, with a minus where it is negated.
    fn literals<D: Desk>(&mut self, desk: &mut D, lits: &[Lit])
        ensures { Writes D.tells (spaced (map literal_text lits.now)) self.old (D.state desk.old) (D.faults desk.old) self.new (D.state desk.new) (D.faults desk.new) }
    {
        for l in lits {
            self.integer(desk, l.number());
        }
    }

    /// Writes a space and a number for each hint, however wide they are kept.
    fn hints<D: Desk>(&mut self, desk: &mut D, hints: HintsRef<'_>)
        ensures { Writes D.tells (spaced (map signed_decimal (lent_hints hints.entry))) self.old (D.state desk.old) (D.faults desk.old) self.new (D.state desk.new) (D.faults desk.new) }
    {
        match hints {
            HintsRef::Short(ids) => self.integers(desk, ids),
            HintsRef::Wide(numbers) => self.integers(desk, numbers),
        }
    }

    /// Writes a space and a name for each node of a set.
    fn names<D: Desk, const W: usize>(&mut self, desk: &mut D, names: &Names, set: &NodeWords<W>)
        requires { length set.now ≡ length names.now }
        ensures { Writes D.tells (spaced (kept set.now names.now)) self.old (D.state desk.old) (D.faults desk.old) self.new (D.state desk.new) (D.faults desk.new) }
    {
        for v in set.iter() {
            self.word(desk, names.name(v));
        }
    }

    /// Writes a space and a text for each group of a set.
    fn texts<D: Desk>(&mut self, desk: &mut D, groups: &Groups, set: &GroupSet)
        requires { length set.now ≡ length groups.now }
        ensures { Writes D.tells (spaced (kept set.now (texts_of groups.now))) self.old (D.state desk.old) (D.faults desk.old) self.new (D.state desk.new) (D.faults desk.new) }
    {
        for at in set.iter() {
            self.word(desk, groups.text(at));
        }
    }

    /// Writes a space and the name of a node, where there is one.
    fn from<D: Desk>(&mut self, desk: &mut D, names: &Names, from: Option<u32>)
        requires { IfSome from (λ v. v < length names.now) }
        ensures { Writes D.tells (spaced (name_if_any names.now from)) self.old (D.state desk.old) (D.faults desk.old) self.new (D.state desk.new) (D.faults desk.new) }
    {
        if let Some(v) = from {
            self.word(desk, names.name(v));
        }
    }

    /// Writes the first four lines.
    fn header<D: Desk>(&mut self, desk: &mut D, about: &Certified<'_>)
        requires from { IfSome about.now.header.now.from (λ v. v < length about.now.whole.now.names) }
        requires faulty { length about.now.header.now.faulty ≡ length about.now.whole.now.names }
        ensures { Writes D.tells (joined (header_lines about.now.whole.now.names about.now.digest.now about.now.header.now))
            self.old (D.state desk.old) (D.faults desk.old) self.new (D.state desk.new) (D.faults desk.new) }
    {
        let names = about.whole.names();
        self.text(desk, b"fbas-cert 3\nconfig");
        self.word(desk, &digits(about.digest));
        self.text(desk, b"\nfrom");
        self.from(desk, names, about.header.from);
        self.text(desk, b"\nfaulty");
        self.names(desk, names, &about.header.faulty);
        self.text(desk, b"\n");
    }

    /// Writes the line of the kind that has this word.
    fn kind_line<D: Desk>(&mut self, desk: &mut D, word: &str)
        ensures { Writes D.tells (kind_line word.now ++ 10 ∷ []) self.old (D.state desk.old) (D.faults desk.old) self.new (D.state desk.new) (D.faults desk.new) }
    {
        self.text(desk, b"kind");
        self.word(desk, word.as_bytes());
        self.text(desk, b"\n");
    }

    /// Writes the lines of a pair of a part, whose names these are, up to the last.
    fn pair_lines<D: Desk>(&mut self, desk: &mut D, names: &Names, pair: &Pair)
        requires first { length pair.now.first ≡ length names.now }
        requires second { length pair.now.second ≡ length names.now }
        ensures { Writes D.tells (joined (pair_front names.now pair.now)) self.old (D.state desk.old) (D.faults desk.old) self.new (D.state desk.new) (D.faults desk.new) }
    {
        self.text(desk, b"kind pair\nfirst");
        self.names(desk, names, &pair.first);
        self.text(desk, b"\nsecond");
        self.names(desk, names, &pair.second);
        self.text(desk, b"\n");
    }

    /// Writes the id of a step, with no space before it.
    fn step_id<D: Desk>(&mut self, desk: &mut D, id: u64)
        ensures { Writes D.tells (decimal id) self.old (D.state desk.old) (D.faults desk.old) self.new (D.state desk.new) (D.faults desk.new) }
    {
        let mut buffer = Buffer::new();
        self.text(desk, buffer.format(id).as_bytes());
    }

    /// Writes the line of a lemma: its id, and its literals and its hints with a zero after each list.
    fn lemma<D: Desk>(&mut self, desk: &mut D, id: u64, lits: &[Lit], hints: HintsRef<'_>)
        ensures { Writes D.tells (line_of (Addition id lits.now (lent_hints hints.entry)) ++ 10 ∷ []) self.old (D.state desk.old) (D.faults desk.old) self.new (D.state desk.new) (D.faults desk.new) }
    {
        self.step_id(desk, id);
        self.literals(desk, lits);
        self.text(desk, b" 0");
        self.hints(desk, hints);
        self.text(desk, b" 0\n");
    }

    /// Writes the line of a deletion: its id, a mark, and the ids of the clauses with a zero after them.
    fn deletion<D: Desk>(&mut self, desk: &mut D, id: u64, ids: &[u64])
        ensures { Writes D.tells (line_of (Deletion id ids.now) ++ 10 ∷ []) self.old (D.state desk.old) (D.faults desk.old) self.new (D.state desk.new) (D.faults desk.new) }
    {
        self.step_id(desk, id);
        self.text(desk, b" d");
        self.integers(desk, ids);
        self.text(desk, b" 0\n");
    }

    /// Writes the line of a step that is borrowed.
    fn step<D: Desk>(&mut self, desk: &mut D, step: StepRef<'_>)
        requires { HasNumbers (lent_step step) }
        ensures { Writes D.tells (line_of (lent_step step.entry) ++ 10 ∷ []) self.old (D.state desk.old) (D.faults desk.old) self.new (D.state desk.new) (D.faults desk.new) }
    {
        match step {
            StepRef::Add { id, lits, hints } => self.lemma(desk, id, lits, hints),
            StepRef::Delete { id, ids } => self.deletion(desk, id, ids),
        }
    }

    /// Writes the lines of a log's steps, or those until a put failed.
    fn steps<D: Desk>(&mut self, desk: &mut D, log: &Log)
        requires { All HasNumbers log.now }
        ensures { Writes D.tells (joined (map line_of log.now)) self.old (D.state desk.old) (D.faults desk.old) self.new (D.state desk.new) (D.faults desk.new) }
    {
        for place in 0..log.len() {
            if self.has_failed {
                return;
            }
            self.step(desk, log.step(place));
        }
    }

    /// Writes the lines of a log up to the last: its kind, the size of the formula, and its steps.
    fn log_lines<D: Desk>(&mut self, desk: &mut D, to: Aim, log: &Log, vars: u64, clauses: u64)
        requires { All HasNumbers log.now }
        ensures { Writes D.tells (joined (log_front to vars clauses log.now)) self.old (D.state desk.old) (D.faults desk.old) self.new (D.state desk.new) (D.faults desk.new) }
    {
        self.kind_line(desk, aim_word(to));
        self.text(desk, b"formula");
        self.number(desk, vars);
        self.number(desk, clauses);
        self.text(desk, b"\n");
        self.steps(desk, log);
    }

    /// Writes the line of a listed set: a letter, the id of its clause, and the names of its nodes.
    fn set_line<D: Desk, const W: usize>(
        &mut self,
        desk: &mut D,
        letter: u8,
        id: u64,
        names: &Names,
        set: &NodeWords<W>,
    )
        requires { length set.now ≡ length names.now }
        ensures { Writes D.tells (set_line (letter ∷ []) id names.now set.now ++ 10 ∷ []) self.old (D.state desk.old) (D.faults desk.old) self.new (D.state desk.new) (D.faults desk.new) }
    {
        self.byte(desk, letter);
        self.number(desk, id);
        self.names(desk, names, set);
        self.text(desk, b"\n");
    }

    /// Writes a line of a journal: a listed set, or a step.
    fn journal_line<D: Desk>(&mut self, desk: &mut D, names: &Names, line: Line<'_, NODE_WORDS>)
        requires { CanBeLine (length names.now) (journal_line_of line) }
        ensures { Writes D.tells (journal_line names.now (journal_line_of line.entry) ++ 10 ∷ []) self.old (D.state desk.old) (D.faults desk.old) self.new (D.state desk.new) (D.faults desk.new) }
    {
        match line {
            Line::Quorum(id, set) => self.set_line(desk, b'q', id, names, set),
            Line::Blocking(id, set) => self.set_line(desk, b'b', id, names, set),
            Line::Smaller(id, set) => self.set_line(desk, b's', id, names, set),
            Line::Step(step) => self.step(desk, step),
        }
    }

    /// Writes the lines of a journal of a part, whose names these are, or those until a put failed.
    fn journal_lines<D: Desk>(&mut self, desk: &mut D, names: &Names, journal: &Journal)
        requires { All (CanBeLine (length names.now)) journal.now }
        ensures { Writes D.tells (joined (map (journal_line names.now) journal.now)) self.old (D.state desk.old) (D.faults desk.old) self.new (D.state desk.new) (D.faults desk.new) }
    {
        let mut lines = journal.lines();
        'each: while let Some(line) = lines.next_line() {
            if self.has_failed {
                return;
            }
            self.journal_line(desk, names, line);
        }
    }

    /// Writes the lines of a list up to the last: its kind, and its journal.
    fn list_lines<D: Desk>(
        &mut self,
        desk: &mut D,
        sought: Listed,
        kind: ListKind,
        names: &Names,
        journal: &Journal,
    )
        requires { All (CanBeLine (length names.now)) journal.now }
        ensures { Writes D.tells (joined (list_front names.now sought kind journal.now)) self.old (D.state desk.old) (D.faults desk.old) self.new (D.state desk.new) (D.faults desk.new) }
    {
        self.kind_line(desk, kind_word(ReachKind::Nodes(sought), kind));
        self.journal_lines(desk, names, journal);
    }

    /// Writes the lines of a search for a smallest quorum up to the last: its kind, the size of the counter of this many nodes, and
    /// its journal.
    fn least_lines<D: Desk>(
        &mut self,
        desk: &mut D,
        size: u32,
        kind: ListKind,
        names: &Names,
        journal: &Journal,
    )
        requires small { counter_vars size ≤ MOST_VARS }
        requires lines { All (CanBeLine (length names.now)) journal.now }
        ensures { Writes D.tells (joined (least_front names.now size kind journal.now)) self.old (D.state desk.old) (D.faults desk.old) self.new (D.state desk.new) (D.faults desk.new) }
    {
        self.kind_line(desk, kind_word(ReachKind::Nodes(Listed::Smaller), kind));
        self.text(desk, b"counter");
        self.number(desk, counter_vars(size));
        self.number(desk, u64::from(size) * u64::from(size));
        self.text(desk, b"\n");
        self.journal_lines(desk, names, journal);
    }

    /// Writes the line of a blocking set of groups: its letter, the id of its clause, and the texts of its groups.
    fn block_line<D: Desk>(&mut self, desk: &mut D, id: u64, groups: &Groups, set: &GroupSet)
        requires { length set.now ≡ length groups.now }
        ensures { Writes D.tells (set_line (98 ∷ []) id (texts_of groups.now) set.now ++ 10 ∷ []) self.old (D.state desk.old) (D.faults desk.old) self.new (D.state desk.new) (D.faults desk.new) }
    {
        self.byte(desk, b'b');
        self.number(desk, id);
        self.texts(desk, groups, set);
        self.text(desk, b"\n");
    }

    /// Writes a line of a journal whose blocking sets are sets of groups.
    fn group_line<D: Desk>(
        &mut self,
        desk: &mut D,
        node_names: &Names,
        groups: &Groups,
        line: Line<'_, GROUP_WORDS>,
    )
        requires { CanBeGroupLine (length node_names.now) (length groups.now) (journal_line_of line) }
        ensures { Writes D.tells (group_journal_line node_names.now (texts_of groups.now) (journal_line_of line.entry) ++ 10 ∷ []) self.old (D.state desk.old) (D.faults desk.old) self.new (D.state desk.new) (D.faults desk.new) }
    {
        match line {
            Line::Quorum(id, set) => self.set_line(desk, b'q', id, node_names, set),
            Line::Blocking(id, set) => self.block_line(desk, id, groups, set),
            Line::Smaller(id, set) => self.set_line(desk, b's', id, node_names, set),
            Line::Step(step) => self.step(desk, step),
        }
    }

    /// Writes the lines of such a journal of a part, whose names and groups these are, or those until a put failed.
    fn group_journal<D: Desk>(
        &mut self,
        desk: &mut D,
        names: &Names,
        groups: &Groups,
        journal: &GroupJournal,
    )
        requires { All (CanBeGroupLine (length names.now) (length groups.now)) journal.now }
        ensures { Writes D.tells (joined (map (group_journal_line names.now (texts_of groups.now)) journal.now)) self.old (D.state desk.old) (D.faults desk.old) self.new (D.state desk.new) (D.faults desk.new) }
    {
        let mut lines = journal.lines();
        'each: while let Some(line) = lines.next_line() {
            if self.has_failed {
                return;
            }
            self.group_line(desk, names, groups, line);
        }
    }

    /// Writes the lines of a list of blocking sets of groups up to the last: its kind, the digest of the organisations' file, and
    /// its journal.
    fn group_lines<D: Desk>(
        &mut self,
        desk: &mut D,
        orgs_digest: &[u8; 32],
        kind: ListKind,
        names: &Names,
        groups: &Groups,
        journal: &GroupJournal,
    )
        requires { All (CanBeGroupLine (length names.now) (length groups.now)) journal.now }
        ensures { Writes D.tells (joined (group_front names.now (texts_of groups.now) orgs_digest.now kind journal.now)) self.old (D.state desk.old) (D.faults desk.old) self.new (D.state desk.new) (D.faults desk.new) }
    {
        self.kind_line(desk, kind_word(ReachKind::Groups, kind));
        self.text(desk, b"orgs");
        self.word(desk, &digits(orgs_digest));
        self.text(desk, b"\n");
        self.group_journal(desk, names, groups, journal);
    }

    /// Writes the lines after the header, up to the last, of a part whose names these are.
    fn content<D: Desk>(&mut self, desk: &mut D, names: &Names, content: Content<'_>)
        requires { CanBeContent (length names.now) content }
        ensures { Writes D.tells (joined (content_front names.now content.entry)) self.old (D.state desk.old) (D.faults desk.old) self.new (D.state desk.new) (D.faults desk.new) }
    {
        match content {
            Content::Pair(pair) => self.pair_lines(desk, names, pair),
            Content::Steps(to, log, vars, clauses) => self.log_lines(desk, to, log, vars, clauses),
            Content::Minimal(sought, kind, journal) => {
                self.list_lines(desk, sought, kind, names, journal)
            }
            Content::Least(size, kind, journal) => {
                self.least_lines(desk, size, kind, names, journal)
            }
            Content::OrgBlocking(digest, groups, kind, journal) => {
                self.group_lines(desk, digest, kind, names, groups, journal)
            }
        }
    }

    /// Writes a certificate up to its last line.
    pub fn certificate<D: Desk>(
        &mut self,
        desk: &mut D,
        about: &Certified<'_>,
        content: Content<'_>,
    ) -> Result<(), WriteFailed>
        requires from { IfSome about.now.header.now.from (λ v. v < length about.now.whole.now.names) }
        requires faulty { length about.now.header.now.faulty ≡ length about.now.whole.now.names }
        requires content { CanBeContent (length about.now.part.now.names) content }
        ensures writes { Writes D.tells
            (joined (header_lines about.now.whole.now.names about.now.digest.now about.now.header.now
            ++ content_front about.now.part.now.names content.entry))
            self.old (D.state desk.old) (D.faults desk.old) self.new (D.state desk.new) (D.faults desk.new) }
        ensures failed { IsTrue self.new.failed ↔ IsErr result }
    {
        self.header(desk, about);
        self.content(desk, about.part.names(), content);
        self.outcome()
    }

    /// Writes the last line, and puts all that is held.
    pub fn finish<D: Desk>(&mut self, desk: &mut D) -> Result<(), WriteFailed>
        ensures writes { Writes D.tells (codes "end\n") self.old (D.state desk.old) (D.faults desk.old) self.new (D.state desk.new) (D.faults desk.new) }
        ensures failed { IsTrue self.new.failed ↔ IsErr result }
        ensures empty { OnOk result (self.new.held ≡ []) }
    {
        self.text(desk, b"end\n");
        self.flush(desk);
        self.outcome()
    }

    /// Whether a put failed.
    fn outcome(&self) -> Result<(), WriteFailed>
        ensures { IsTrue self.now.failed ↔ IsErr result }
    {
        if self.has_failed {
            Err(WriteFailed)
        } else {
            Ok(())
        }
    }
}
