//! The certificates of a search for a smallest quorum.
ghost use Rattle.std.specs.Prelude.{◌≡◌, ◌≤◌, ℕ, length};
ghost use Rattle.std.specs.List.Sorted.{IsStrictlySortedBy};
ghost use Rattle.hex.specs.Hex.{IsBytes};
ghost use Rattle.fbas_model.specs.Names.{name_cmp};
ghost use Rattle.fbas_model.specs.Nodes.{Table, size};
ghost use Rattle.fbas_model.specs.Systems.{System, IsSystem};
ghost use Rattle.clause_encoder.specs.NameCounter.{counter_vars};
ghost use Rattle.clause_encoder.specs.declared.limits.TheConstants.{MOST_VARS};
ghost use Rattle.least_quorum.specs.Outcomes.{least_journal_of};
ghost use Rattle.least_quorum.specs.declared.outcome.LeastOutcome.{LeastOutcome};
ghost use Rattle.quorum_questions.specs.declared.asking.TheConstants.{MOST_UNITS};
ghost use Rattle.cert_writer.specs.Promises.{IsHeader, greatest_of_part, HasPart, PutsCertificate};
ghost use Rattle.cert_writer.specs.Finding.{Request, part, faulty};
ghost use Rattle.cert_writer.specs.Least.{kind_of, least_cert_over, least_cert_of, LeastShows, FindsLeast, CanBeLeast};
ghost use Rattle.cert_writer.specs.Writing.{IsFresh};

use crate::certified::Certified;
use crate::content::Content;
use crate::whole::write_certificate;
use crate::writer::CertWriter;
use blocking_lists::Journal;
use desk_io::{Desk, WriteFailed};
use enumeration_journal::ListKind;
use least_quorum::LeastOutcome;

/// Whether the journal of an outcome is a whole one.
fn kind_of(outcome: &LeastOutcome) -> ListKind
    ensures { result ≡ kind_of outcome.now }
{
    match outcome {
        LeastOutcome::Least(_, _) | LeastOutcome::NoQuorum(_) => ListKind::Whole,
        LeastOutcome::Spent(_) => ListKind::Partial,
    }
}

/// The journal of an outcome.
fn journal_of(outcome: &LeastOutcome) -> &Journal
    ensures { result.now ≡ least_journal_of outcome.now }
{
    match outcome {
        LeastOutcome::Least(_, journal)
        | LeastOutcome::NoQuorum(journal)
        | LeastOutcome::Spent(journal) => journal,
    }
}

/// Writes the certificate of a search for a smallest quorum, whole or in part, to the created file. `check` accepts it.
///
/// The journal has the numbers of the part, whose greatest quorum has this many nodes.
pub fn write_least<D: Desk>(
    writer: &mut CertWriter,
    desk: &mut D,
    about: &Certified<'_>,
    nodes: u32,
    outcome: &LeastOutcome,
) -> Result<(), WriteFailed>
    requires fresh { IsFresh writer.old }
    requires part { HasPart about.now }
    requires nodes { nodes ≡ size (greatest_of_part about.now.whole.now about.now.header.now) }
    requires small { counter_vars nodes ≤ MOST_VARS }
    requires found { CanBeLeast (length about.now.part.now.names) outcome.now }
    ensures { PutsCertificate D.tells
        (least_cert_over about.now.whole.now about.now.digest.now about.now.header.now outcome.now)
        result (D.state desk.old) (D.faults desk.old) (D.state desk.new) (D.faults desk.new) }
{
    let content = Content::Least(nodes, kind_of(outcome), journal_of(outcome));
    write_certificate(writer, desk, about, content)
}

/// What a search for a smallest quorum shows can be written, and its certificate is accepted.
pub fn what_is_least_is_found()
    ensures written { (f : System) (b : Table) (budget : ℕ) (outcome : LeastOutcome) → length f.names ≡ length f.sets → LeastShows f.sets b budget outcome → CanBeLeast (length f.names) outcome }
    ensures found { (s : Request) (outcome : LeastOutcome) → IsSystem s.whole.names s.whole.sets → IsStrictlySortedBy name_cmp s.whole.names → length s.digest ≡ 32 → IsBytes s.digest → IsHeader s.whole s.header → s.budget ≤ MOST_UNITS
        → LeastShows (part s).sets (faulty s) s.budget outcome → FindsLeast s outcome (least_cert_of s outcome) }
{}
