//! The certificates of lists.
ghost use Rattle.std.specs.Prelude.{◌≡◌, ◌≤◌, ℕ, length};
ghost use Rattle.std.specs.List.Sorted.{IsStrictlySortedBy};
ghost use Rattle.hex.specs.Hex.{IsBytes};
ghost use Rattle.fbas_model.specs.Names.{name_cmp};
ghost use Rattle.fbas_model.specs.Nodes.{Table};
ghost use Rattle.fbas_model.specs.Systems.{System, IsSystem};
ghost use Rattle.enumeration_journal.specs.declared.kinds.Listed.{Listed};
ghost use Rattle.blocking_lists.specs.declared.outcome.ListOutcome.{ListOutcome};
ghost use Rattle.quorum_questions.specs.declared.asking.TheConstants.{MOST_UNITS};
ghost use Rattle.cert_writer.specs.Promises.{IsHeader, HasPart, PutsCertificate};
ghost use Rattle.cert_writer.specs.Finding.{Request, part, faulty};
ghost use Rattle.cert_writer.specs.Listing.{list_cert_over, list_cert_of, ListShows, FindsList, CanBeListed};
ghost use Rattle.cert_writer.specs.Writing.{IsFresh};

use crate::certified::Certified;
use crate::content::Content;
use crate::whole::write_certificate;
use crate::writer::CertWriter;
use blocking_lists::ListOutcome;
use desk_io::{Desk, WriteFailed};
use enumeration_journal::{ListKind, Listed};

/// Writes the certificate of a list, whole or in part, to the created file. `check` accepts it.
///
/// The list has the numbers of the part.
pub fn write_list<D: Desk>(
    writer: &mut CertWriter,
    desk: &mut D,
    about: &Certified<'_>,
    sought: Listed,
    outcome: &ListOutcome,
) -> Result<(), WriteFailed>
    requires fresh { IsFresh writer.old }
    requires part { HasPart about.now }
    requires found { CanBeListed (length about.now.part.now.names) outcome.now }
    ensures { PutsCertificate D.tells
        (list_cert_over sought about.now.whole.now about.now.digest.now about.now.header.now outcome.now)
        result (D.state desk.old) (D.faults desk.old) (D.state desk.new) (D.faults desk.new) }
{
    match outcome {
        ListOutcome::Whole(_, journal) => write_certificate(
            writer,
            desk,
            about,
            Content::Minimal(sought, ListKind::Whole, journal),
        ),
        ListOutcome::Spent(journal) => write_certificate(
            writer,
            desk,
            about,
            Content::Minimal(sought, ListKind::Partial, journal),
        ),
    }
}

/// What a search for all minimal sets of a kind shows can be written, and its certificate is accepted.
pub fn what_is_listed_is_found()
    ensures written { (sought : Listed) (f : System) (b : Table) (budget : ℕ) (outcome : ListOutcome) → length f.names ≡ length f.sets → ListShows sought f.sets b budget outcome → CanBeListed (length f.names) outcome }
    ensures found { (sought : Listed) (s : Request) (outcome : ListOutcome) → IsSystem s.whole.names s.whole.sets → IsStrictlySortedBy name_cmp s.whole.names → length s.digest ≡ 32 → IsBytes s.digest → IsHeader s.whole s.header → s.budget ≤ MOST_UNITS
        → ListShows sought (part s).sets (faulty s) s.budget outcome → FindsList sought s outcome (list_cert_of sought s outcome) }
{}
