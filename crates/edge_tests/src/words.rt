//! Which orders the words give.

use crate::shared::same;
use cli_words::{Command, Goal, Order, Query, order, usage};
use std::alloc::{AllocError, Global};
use std::process::Abort;

/// The words of a line after the program's name, parted at each space.
fn words_of(alloc: Global, line: &str) -> Result<Vec<String>, AllocError> {
    let mut words = Vec::new(alloc);
    words.push(String::from_str(alloc, "quorum_cli")?)?;
    for word in line.split(' ') {
        words.push(String::from_str(alloc, word)?)?;
    }
    Ok(words)
}

/// The name of a command.
fn name_of(command: Command) -> &'static str {
    match command {
        Command::Query(Query::Show) => "show",
        Command::Query(Query::Closure) => "closure",
        Command::Query(Query::Greatest) => "greatest",
        Command::Query(Query::Available) => "available",
        Command::Query(Query::Blocks) => "blocks",
        Command::Query(Query::Vblocks) => "vblocks",
        Command::Query(Query::Export) => "export",
        Command::Search(Goal::Intersect) => "intersect",
        Command::Search(Goal::Dset) => "dset",
        Command::Search(Goal::Splits) => "splits",
        Command::Search(Goal::Blocking) => "blocking",
        Command::Search(Goal::Quorums) => "quorums",
        Command::Search(Goal::Least) => "least",
        Command::Search(Goal::OrgBlocking) => "org-blocking",
        Command::Search(Goal::Trial) => "trial",
        Command::Check => "check",
        Command::CheckLrat => "check-lrat",
        Command::Whatif => "whatif",
    }
}

/// The command, the paths, and what `--node`, `--faulty` and `--set` give.
fn own(alloc: Global, order: &Order) -> Result<String, AllocError> {
    let paths = (order.config.as_str(), order.cert.as_str());
    let (node, faulty, set) = (
        order.node.as_deref(),
        order.faulty.as_deref(),
        order.set.as_deref(),
    );
    let command = name_of(order.command);
    format!(in alloc; "{command} {paths:?} {node:?} {faulty:?} {set:?}")
}

/// What `--from`, `--orgs` and `--faulty-orgs` give.
fn common(alloc: Global, order: &Order) -> Result<String, AllocError> {
    let (from, orgs, faulty_orgs) = (
        order.from.as_deref(),
        order.orgs.as_deref(),
        order.faulty_orgs.as_deref(),
    );
    format!(in alloc; "{from:?} {orgs:?} {faulty_orgs:?}")
}

/// What is shown of an order.
#[derive(Clone, Copy)]
enum Part {
    Own,
    Common,
}

fn part_of(alloc: Global, order: &Order, part: Part) -> Result<String, AllocError> {
    match part {
        Part::Own => own(alloc, order),
        Part::Common => common(alloc, order),
    }
}

/// A part of the order that a line gives, or its fault.
fn read(alloc: Global, line: &str, part: Part) -> Result<String, AllocError> {
    let words = words_of(alloc, line)?;
    match order(alloc, &words) {
        Ok(order) => part_of(alloc, &order, part),
        Err(fault) => format!(in alloc; "{fault:?}"),
    }
}

/// A row `LINE => READ` of its line.
fn row_of(alloc: Global, row: &str, part: Part) -> Result<String, AllocError> {
    let line = match row.split_once(" => ") {
        Some((line, _)) => line,
        None => row,
    };
    format!(in alloc; "{line} => {}", read(alloc, line, part)?)
}

/// Fails the test where a line gives another order, or another fault.
fn wants_read(rt: &impl Abort, alloc: Global, part: Part, rows: &[&str]) {
    for row in rows {
        same(rt, row_of(alloc, row, part), row);
    }
}

static ORDERS: [&str; 13] = [
    r#"show f => show ("f", "") None None None"#,
    r#"closure f --node v => closure ("f", "") Some("v") None None"#,
    r#"greatest f --faulty a,b => greatest ("f", "") None Some("a,b") None"#,
    r#"available f --set a => available ("f", "") None None Some("a")"#,
    r#"blocks f --set= => blocks ("f", "") None None Some("")"#,
    r#"blocks --set=-x --faulty b f => blocks ("f", "") None Some("b") Some("-x")"#,
    r#"vblocks f --node v --set a => vblocks ("f", "") Some("v") None Some("a")"#,
    r#"check f c => check ("f", "c") None None None"#,
    r#"blocking f c --faulty a => blocking ("f", "c") None Some("a") None"#,
    r#"trial --budget 0 100 c => trial ("", "c") None None None"#,
    r#"export f --faulty a => export ("f", "") None Some("a") None"#,
    r#"org-blocking f c --orgs o --faulty a => org-blocking ("f", "c") None Some("a") None"#,
    r#"check-lrat f p --faulty a => check-lrat ("f", "p") None Some("a") None"#,
];

static COMMON: [&str; 6] = [
    "greatest f => None None None",
    r#"greatest f --from a --orgs o --faulty-orgs c,d => Some("a") Some("o") Some("c,d")"#,
    r#"available f --from a --set b => Some("a") None None"#,
    r#"blocks --faulty-orgs= --set b --orgs o f => None Some("o") Some("")"#,
    r#"check f c --orgs o => None Some("o") None"#,
    r#"org-blocking f c --from a --orgs o --faulty-orgs c => Some("a") Some("o") Some("c")"#,
];

#[test]
fn takes_each_command(rt: HostRuntime) {
    wants_read(&rt, rt.alloc(), Part::Own, &ORDERS);
}

#[test]
fn takes_the_common_options(rt: HostRuntime) {
    wants_read(&rt, rt.alloc(), Part::Common, &COMMON);
}

static REFUSED: [&str; 15] = [
    " => Words",
    "--help => Words",
    "check f => Words",
    "check f f => SamePath",
    "blocks f --set -x => Words",
    "blocks f --set a --set a => Words",
    "available f --set a --faulty b => Words",
    "closure f => Words",
    "check f c --from a => Words",
    "interse f c => Words",
    "org-blocking f c => Words",
    "check f o --orgs o => SamePath",
    "org-blocking f o --orgs o => SamePath",
    "trial 0 c => Words",
    "trial 101 c => Words",
];

#[test]
fn refuses_other_words(rt: HostRuntime) {
    wants_read(&rt, rt.alloc(), Part::Own, &REFUSED);
}

const USAGE: &str =
    "usage: quorum_cli COMMAND\nshow CONFIG\nclosure CONFIG --node NAME\ngreatest CONFIG [COMMON]\nintersect CONFIG CERT [COMMON] [--budget UNITS]\navailable CONFIG --set NAMES [--from NAME]\ndset CONFIG CERT --set NAMES [--from NAME] [--budget UNITS]\nblocks CONFIG --set NAMES [COMMON]\nvblocks CONFIG --node NAME --set NAMES\nsplits CONFIG CERT --set NAMES [COMMON] [--budget UNITS]\nblocking CONFIG CERT [COMMON] [--budget UNITS]\ncheck CONFIG CERT [--orgs ORGS]\nexport CONFIG [COMMON] [--formula VERSION]\ntrial N CERT [--budget UNITS]\ncheck-lrat CONFIG LRAT [COMMON] [--formula VERSION]\nquorums CONFIG CERT [COMMON] [--budget UNITS]\nleast CONFIG CERT [COMMON] [--budget UNITS]\norg-blocking CONFIG CERT --orgs ORGS [--from NAME] [--faulty NAMES] [--faulty-orgs IDS] [--budget UNITS]\nwhatif CONFIG SCRIPT --set NAMES\nCOMMON: --from NAME --faulty NAMES --orgs ORGS --faulty-orgs IDS\n";

/// The usage text as a string.
fn printed(alloc: Global) -> Result<String, AllocError> {
    let text = usage(alloc)?;
    String::from_utf8_lossy(alloc, &text)
}

#[test]
fn prints_a_line_for_each_command(rt: HostRuntime) {
    same(&rt, printed(rt.alloc()), USAGE);
}
