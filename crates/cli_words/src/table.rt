//! The table of the commands: a row for each, from which all that depends on the command follows.
ghost use Rattle.std.specs.Prelude.{◌≡◌};
ghost use Rattle.cli_words.specs.Table.{commands, file_id, file_place, flag_id, flag_place, flag_words, has_budget as spec_has_budget, has_certificate as spec_has_certificate, has_formula as spec_has_formula, row_of as spec_row_of, row_view, target_id, target_place};

use crate::orders::{Command, Goal, Query};
use crate::table::Flag::{Budget, Faulty, FaultyOrgs, Formula, From, Node, Orgs, Set};
use crate::table::Parameter::{Common, Needs, Takes};
use crate::table::SecondFile::{Certificate, Proof, Script};
use crate::table::Target::{Config, Organisations};

/// What a command is about: the word that comes first after the command's own.
#[derive(Clone, Copy)]
pub enum Target {
    /// A configuration, by its path.
    Config,
    /// A trial, by how many organisations it has.
    Organisations,
}

/// The file that a command has beside its configuration, by its path.
#[derive(Clone, Copy)]
pub enum SecondFile {
    /// A certificate, which a search writes and `check` reads.
    Certificate,
    /// The proof of another solver.
    Proof,
    /// The edits that are tried.
    Script,
}

/// An option, which has a value.
#[derive(Clone, Copy)]
pub enum Flag {
    From,
    Faulty,
    Orgs,
    FaultyOrgs,
    Node,
    Set,
    Budget,
    Formula,
}

/// What a command has of options.
#[derive(Clone, Copy)]
pub enum Parameter {
    /// This option must be there.
    Needs(Flag),
    /// This option may be left out.
    Takes(Flag),
    /// Those that ask about a part of the system, and that name faulty nodes. Each may be left out.
    Common,
}

/// A row of the table.
#[derive(Clone, Copy)]
pub struct Row<'a> {
    /// The command's word.
    pub word: &'a str,
    pub target: Target,
    pub second: Option<SecondFile>,
    pub options: &'a [Parameter],
}

impl Target {
    /// By which name clap knows it.
    pub fn id<'a>(self) -> &'a str
        ensures { result.now ≡ target_id self }
    {
        match self {
            Target::Config => "config",
            Target::Organisations => "organisations",
        }
    }

    /// What stands for it in the usage text.
    pub fn place<'a>(self) -> &'a str
        ensures { result.now ≡ target_place self }
    {
        match self {
            Target::Config => "CONFIG",
            Target::Organisations => "N",
        }
    }
}

impl SecondFile {
    /// By which name clap knows it.
    pub fn id<'a>(self) -> &'a str
        ensures { result.now ≡ file_id self }
    {
        match self {
            SecondFile::Certificate | SecondFile::Proof => "cert",
            SecondFile::Script => "script",
        }
    }

    /// What stands for it in the usage text.
    pub fn place<'a>(self) -> &'a str
        ensures { result.now ≡ file_place self }
    {
        match self {
            SecondFile::Certificate => "CERT",
            SecondFile::Proof => "LRAT",
            SecondFile::Script => "SCRIPT",
        }
    }
}

impl Flag {
    // Its id, and what stands for its value.
    fn words<'a>(self) -> (&'a str, &'a str)
        ensures id { result.0.now ≡ (flag_words self).0 }
        ensures place { result.1.now ≡ (flag_words self).1 }
    {
        match self {
            Flag::From => ("from", "NAME"),
            Flag::Faulty => ("faulty", "NAMES"),
            Flag::Orgs => ("orgs", "ORGS"),
            Flag::FaultyOrgs => ("faulty-orgs", "IDS"),
            Flag::Node => ("node", "NAME"),
            Flag::Set => ("set", "NAMES"),
            Flag::Budget => ("budget", "UNITS"),
            Flag::Formula => ("formula", "VERSION"),
        }
    }

    /// Its word after the two dashes, by which clap knows it.
    pub fn id<'a>(self) -> &'a str
        ensures { result.now ≡ flag_id self }
    {
        self.words().0
    }

    /// What stands for its value in the usage text.
    pub fn place<'a>(self) -> &'a str
        ensures { result.now ≡ flag_place self }
    {
        self.words().1
    }
}

impl<'a> Row<'a> {
    fn of(
        word: &'a str,
        target: Target,
        second: Option<SecondFile>,
        options: &'a [Parameter],
    ) -> Row<'a>
        ensures { row_view result ≡ record { word = word.entry.now; target = target; second = second; options = options.entry.now } }
    {
        Row {
            word,
            target,
            second,
            options,
        }
    }
}

/// The row of a command.
#[tactic(auto, unfolding(crate::specs::Table::row_of))]
pub fn row_of<'a>(command: Command) -> Row<'a>
    ensures { row_view result ≡ spec_row_of command }
{
    match command {
        Command::Query(Query::Show) => Row::of("show", Config, None, &[]),
        Command::Query(Query::Closure) => Row::of("closure", Config, None, &[Needs(Node)]),
        Command::Query(Query::Greatest) => Row::of("greatest", Config, None, &[Common]),
        Command::Query(Query::Available) => Row::of(
            "available",
            Config,
            None,
            &[Needs(Set), Takes(From)],
        ),
        Command::Query(Query::Blocks) => Row::of("blocks", Config, None, &[Needs(Set), Common]),
        Command::Query(Query::Vblocks) => Row::of(
            "vblocks",
            Config,
            None,
            &[Needs(Node), Needs(Set)],
        ),
        Command::Query(Query::Export) => Row::of("export", Config, None, &[Common, Takes(Formula)]),
        Command::Search(Goal::Intersect) => Row::of(
            "intersect",
            Config,
            Some(Certificate),
            &[Common, Takes(Budget)],
        ),
        Command::Search(Goal::Dset) => Row::of(
            "dset",
            Config,
            Some(Certificate),
            &[Needs(Set), Takes(From), Takes(Budget)],
        ),
        Command::Search(Goal::Splits) => Row::of(
            "splits",
            Config,
            Some(Certificate),
            &[Needs(Set), Common, Takes(Budget)],
        ),
        Command::Search(Goal::Blocking) => Row::of(
            "blocking",
            Config,
            Some(Certificate),
            &[Common, Takes(Budget)],
        ),
        Command::Search(Goal::Trial) => Row::of(
            "trial",
            Organisations,
            Some(Certificate),
            &[Takes(Budget)],
        ),
        Command::Search(Goal::Quorums) => Row::of(
            "quorums",
            Config,
            Some(Certificate),
            &[Common, Takes(Budget)],
        ),
        Command::Search(Goal::Least) => Row::of(
            "least",
            Config,
            Some(Certificate),
            &[Common, Takes(Budget)],
        ),
        Command::Search(Goal::OrgBlocking) => Row::of(
            "org-blocking",
            Config,
            Some(Certificate),
            &[
                Needs(Orgs),
                Takes(From),
                Takes(Faulty),
                Takes(FaultyOrgs),
                Takes(Budget),
            ],
        ),
        Command::Check => Row::of("check", Config, Some(Certificate), &[Takes(Orgs)]),
        Command::CheckLrat => Row::of("check-lrat", Config, Some(Proof), &[Common, Takes(Formula)]),
        Command::Whatif => Row::of("whatif", Config, Some(Script), &[Needs(Set)]),
    }
}

/// All commands, in the order of the usage text.
pub fn all_commands<'a>() -> &'a [Command]
    ensures { result.now ≡ commands }
{
    &[
        Command::Query(Query::Show),
        Command::Query(Query::Closure),
        Command::Query(Query::Greatest),
        Command::Search(Goal::Intersect),
        Command::Query(Query::Available),
        Command::Search(Goal::Dset),
        Command::Query(Query::Blocks),
        Command::Query(Query::Vblocks),
        Command::Search(Goal::Splits),
        Command::Search(Goal::Blocking),
        Command::Check,
        Command::Query(Query::Export),
        Command::Search(Goal::Trial),
        Command::CheckLrat,
        Command::Search(Goal::Quorums),
        Command::Search(Goal::Least),
        Command::Search(Goal::OrgBlocking),
        Command::Whatif,
    ]
}

/// Whether the command has a certificate, or another solver's proof in its place.
pub fn has_certificate(command: Command) -> bool
    ensures { result ≡ spec_has_certificate command }
{
    matches!(
        row_of(command).second,
        Some(SecondFile::Certificate | SecondFile::Proof)
    )
}

/// Whether the command has a budget.
pub fn has_budget(command: Command) -> bool
    ensures { result ≡ spec_has_budget command }
{
    row_of(command)
        .options
        .iter()
        .any(|option| matches!(option, Parameter::Takes(Flag::Budget)))
}

/// Whether the command has a version of the formula.
pub fn has_formula(command: Command) -> bool
    ensures { result ≡ spec_has_formula command }
{
    row_of(command)
        .options
        .iter()
        .any(|option| matches!(option, Parameter::Takes(Flag::Formula)))
}
