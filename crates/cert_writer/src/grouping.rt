//! The certificates of lists of blocking sets of groups.
ghost use Rattle.std.specs.Prelude.{◌≡◌, ◌≤◌, ℕ, List, Some, length};
ghost use Rattle.std.specs.List.Sorted.{IsStrictlySortedBy};
ghost use Rattle.hex.specs.Hex.{IsBytes};
ghost use Rattle.fbas_model.specs.Names.{name_cmp};
ghost use Rattle.fbas_model.specs.Nodes.{Table};
ghost use Rattle.fbas_model.specs.Systems.{System, IsSystem};
ghost use Rattle.node_json.specs.Groups.{Group, tables_of};
ghost use Rattle.group_lists.specs.Outcomes.{group_journal_in};
ghost use Rattle.group_lists.specs.declared.outcome.GroupOutcome.{GroupOutcome};
ghost use Rattle.quorum_questions.specs.declared.asking.TheConstants.{MOST_UNITS};
ghost use Rattle.certificate_file.specs.declared.given.GivenOrgs.{GivenOrgs};
ghost use Rattle.cert_writer.specs.Promises.{IsHeader, groups_in, AreOrgs, HasPart, PutsCertificate};
ghost use Rattle.cert_writer.specs.Finding.{Request, part, faulty};
ghost use Rattle.cert_writer.specs.Grouping.{kind_of, group_cert_over, group_cert_of, GroupsShow, FindsGroups, CanBeGroups};
ghost use Rattle.cert_writer.specs.Writing.{IsFresh};

use crate::certified::Certified;
use crate::content::Content;
use crate::whole::write_certificate;
use crate::writer::CertWriter;
use desk_io::{Desk, WriteFailed};
use enumeration_journal::ListKind;
use group_lists::{GroupJournal, GroupOutcome};
use node_json::Groups;

/// Whether the journal of an outcome is a whole one.
fn kind_of(outcome: &GroupOutcome) -> ListKind
    ensures { result ≡ kind_of outcome.now }
{
    match outcome {
        GroupOutcome::Whole(_, _) => ListKind::Whole,
        GroupOutcome::Spent(_) => ListKind::Partial,
    }
}

/// The journal of an outcome.
fn journal_of(outcome: &GroupOutcome) -> &GroupJournal
    ensures { result.now ≡ group_journal_in outcome.now }
{
    match outcome {
        GroupOutcome::Whole(_, journal) | GroupOutcome::Spent(journal) => journal,
    }
}

/// Writes the certificate of a list of blocking sets of groups, whole or in part, to the created file, where this is the digest of
/// the organisations' file. `check` accepts it.
///
/// The list has the numbers of the part and of its groups.
pub fn write_groups<D: Desk>(
    writer: &mut CertWriter,
    desk: &mut D,
    about: &Certified<'_>,
    orgs_digest: &[u8; 32],
    groups: &Groups,
    outcome: &GroupOutcome,
) -> Result<(), WriteFailed>
    requires fresh { IsFresh writer.old }
    requires part { HasPart about.now }
    requires found { CanBeGroups (length about.now.part.now.names) (length groups.now) outcome.now }
    ensures { PutsCertificate D.tells
        (group_cert_over about.now.whole.now about.now.digest.now about.now.header.now
        orgs_digest.now groups.now outcome.now)
        result (D.state desk.old) (D.faults desk.old) (D.state desk.new) (D.faults desk.new) }
{
    let content = Content::OrgBlocking(orgs_digest, groups, kind_of(outcome), journal_of(outcome));
    write_certificate(writer, desk, about, content)
}

/// What a search for all minimal blocking sets of groups shows can be written, and its certificate is accepted.
pub fn what_is_grouped_is_found()
    ensures written { (f : System) (b : Table) (groups : List Group) (budget : ℕ) (outcome : GroupOutcome) → length f.names ≡ length f.sets → GroupsShow f.sets b (tables_of groups) budget outcome → CanBeGroups (length f.names) (length groups) outcome }
    ensures found { (s : Request) (given : GivenOrgs) (groups : List Group) (outcome : GroupOutcome) → IsSystem s.whole.names s.whole.sets → IsStrictlySortedBy name_cmp s.whole.names → length s.digest ≡ 32 → IsBytes s.digest → IsHeader s.whole s.header → s.budget ≤ MOST_UNITS
        → s.orgs ≡ Some given → AreOrgs s.whole given → groups ≡ groups_in s.whole s.header given.orgs → GroupsShow (part s).sets (faulty s) (tables_of groups) s.budget outcome → FindsGroups s groups outcome (group_cert_of s given groups outcome) }
{}
