//! The certificates of what a search finds.
ghost use Rattle.std.specs.Prelude.{◌≡◌, ◌≤◌, ℕ, length};
ghost use Rattle.std.specs.List.Sorted.{IsStrictlySortedBy};
ghost use Rattle.hex.specs.Hex.{IsBytes};
ghost use Rattle.fbas_model.specs.Names.{name_cmp};
ghost use Rattle.fbas_model.specs.Nodes.{Table};
ghost use Rattle.fbas_model.specs.Systems.{System, IsSystem};
ghost use Rattle.quorum_questions.specs.Evidence.{Shows};
ghost use Rattle.quorum_questions.specs.declared.answers.Answer.{Answer as Found};
ghost use Rattle.quorum_questions.specs.declared.asking.TheConstants.{MOST_UNITS};
ghost use Rattle.cert_writer.specs.Promises.{IsHeader, HasPart, PutsCertificate};
ghost use Rattle.cert_writer.specs.Finding.{Request, part, faulty, cert_over, cert_of, Finds, CanBeWritten};
ghost use Rattle.cert_writer.specs.Writing.{IsFresh};

use crate::certified::Certified;
use crate::content::Content;
use crate::whole::write_certificate;
use crate::writer::CertWriter;
use certificate_file::Aim;
use desk_io::{Desk, WriteFailed};
use quorum_questions::Answer;

/// Writes the certificate of what a search found to the created file. `check` accepts it.
pub fn write_found<D: Desk>(
    writer: &mut CertWriter,
    desk: &mut D,
    about: &Certified<'_>,
    found: &Answer,
) -> Result<(), WriteFailed>
    requires fresh { IsFresh writer.old }
    requires part { HasPart about.now }
    requires found { CanBeWritten (length about.now.part.now.names) found.now }
    ensures { PutsCertificate D.tells (cert_over about.now.whole.now about.now.digest.now about.now.header.now found.now)
        result (D.state desk.old) (D.faults desk.old) (D.state desk.new) (D.faults desk.new) }
{
    match found {
        Answer::Yes(log, size) => write_certificate(
            writer,
            desk,
            about,
            Content::Steps(Aim::Refutation, log, size.vars, size.clauses),
        ),
        Answer::No(pair) => write_certificate(writer, desk, about, Content::Pair(pair)),
        Answer::Spent(log, size) => write_certificate(
            writer,
            desk,
            about,
            Content::Steps(Aim::Partial, log, size.vars, size.clauses),
        ),
    }
}

/// What a search shows can be written, and its certificate is accepted.
pub fn what_is_shown_is_found()
    ensures written { (f : System) (b : Table) (budget : ℕ) (found : Found) → length f.names ≡ length f.sets → Shows f.sets b budget found → CanBeWritten (length f.names) found }
    ensures found { (s : Request) (found : Found) → IsSystem s.whole.names s.whole.sets → IsStrictlySortedBy name_cmp s.whole.names → length s.digest ≡ 32 → IsBytes s.digest → IsHeader s.whole s.header → s.budget ≤ MOST_UNITS
        → Shows (part s).sets (faulty s) s.budget found → Finds s found (cert_of s found) }
{}
