//! A program that is given no word, not even its own name.
use crate::desks::{Files, run_words, said, same};
use command_run::Status;
use std::alloc::{AllocError, Global};

const USAGE: &str =
    "usage: quorum_cli COMMAND\nshow CONFIG\nclosure CONFIG --node NAME\ngreatest CONFIG [COMMON]\nintersect CONFIG CERT [COMMON] [--budget UNITS]\navailable CONFIG --set NAMES [--from NAME]\ndset CONFIG CERT --set NAMES [--from NAME] [--budget UNITS]\nblocks CONFIG --set NAMES [COMMON]\nvblocks CONFIG --node NAME --set NAMES\nsplits CONFIG CERT --set NAMES [COMMON] [--budget UNITS]\nblocking CONFIG CERT [COMMON] [--budget UNITS]\ncheck CONFIG CERT [--orgs ORGS]\nexport CONFIG [COMMON] [--formula VERSION]\ntrial N CERT [--budget UNITS]\ncheck-lrat CONFIG LRAT [COMMON] [--formula VERSION]\nquorums CONFIG CERT [COMMON] [--budget UNITS]\nleast CONFIG CERT [COMMON] [--budget UNITS]\norg-blocking CONFIG CERT --orgs ORGS [--from NAME] [--faulty NAMES] [--faulty-orgs IDS] [--budget UNITS]\nwhatif CONFIG SCRIPT --set NAMES\nCOMMON: --from NAME --faulty NAMES --orgs ORGS --faulty-orgs IDS\n";

// What is said of no word at all.
fn told_of_no_word(alloc: Global) -> Result<String, AllocError> {
    let left = run_words(alloc, &[], &Files::of(b""), 1, Vec::new(alloc))?;
    said(alloc, "", left.status, &left.out)
}

#[test]
fn no_word_at_all_is_no_order(rt: HostRuntime) {
    let alloc = rt.alloc();
    let want = said(alloc, "", Status::Usage, USAGE.as_bytes());
    same(&rt, told_of_no_word(alloc), want);
}
