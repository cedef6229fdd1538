//! Scripts line by line, with ample memory.

use name_set::{Names, NodeSet};
use node_json::read_config;
use std::alloc::{AllocError, Global};
use std::process::Abort;
use std::str::from_utf8;
use whatif_session::{EditFault, Session, script_lines};

/// Three nodes, each of which wants two of the three.
static THREE: &str =
    "[{\"publicKey\":\"a\",\"quorumSet\":{\"threshold\":2,\"validators\":[\"a\",\"b\",\"c\"]}},{\"publicKey\":\"b\",\"quorumSet\":{\"threshold\":2,\"validators\":[\"a\",\"b\",\"c\"]}},{\"publicKey\":\"c\",\"quorumSet\":{\"threshold\":2,\"validators\":[\"a\",\"b\",\"c\"]}}]";

/// Fails the test where the texts differ, or memory is wanting.
fn same(rt: &impl Abort, found: Result<String, AllocError>, want: &str) {
    let found = found.expect(rt, "memory");
    assert_eq!(rt; found.as_str(), want, "a text");
}

/// A session over the system of a text, or none where it is no configuration.
fn session_over(alloc: Global, config: &[u8]) -> Option<Session> {
    match read_config(alloc, config) {
        Ok(system) => Some(Session::start(system)),
        Err(_) => None,
    }
}

/// The names of the nodes of a set, with a space before each.
fn push_names(text: &mut String, names: &Names, set: &NodeSet) -> Result<(), AllocError> {
    for v in set.iter() {
        if v < names.len() {
            text.push_str(" ")?;
            text.push_str(from_utf8(names.name(v)).unwrap_or("?"))?;
        }
    }
    Ok(())
}

/// What is told of the session's system, and of the nodes that are unmet despite those of a list.
fn push_told(text: &mut String, session: &mut Session, list: &[u8]) -> Result<(), AllocError> {
    let set = session.marked(list);
    let available = session.available(&set);
    text.push_str("greatest")?;
    push_names(text, session.system().names(), session.greatest())?;
    text.push_str(if available { " available" } else { " unmet" })?;
    push_names(text, session.system().names(), session.unmet())?;
    text.push_str("; ")
}

/// The text of the session's system is read as a system that has the same text, and of which the same is told.
fn reads_back(alloc: Global, session: &mut Session, list: &[u8]) -> Result<bool, AllocError> {
    let text = session.text(alloc)?;
    let Some(mut again) = session_over(alloc, text.as_bytes()) else {
        return Ok(false);
    };
    let mut told = String::new(alloc);
    push_told(&mut told, session, list)?;
    let mut told_again = String::new(alloc);
    push_told(&mut told_again, &mut again, list)?;
    let text_again = again.text(alloc)?;
    Ok(told.as_str() == told_again.as_str() && text.as_str() == text_again.as_str())
}

fn push_fault(
    alloc: Global,
    text: &mut String,
    fault: EditFault,
    line: u64,
) -> Result<(), AllocError> {
    text.push_str(&format!(in alloc; "{fault} {line}; ")?)
}

/// What is told before and after each line of a script, and its first fault.
fn told(alloc: Global, script: &[u8], list: &[u8]) -> Result<String, AllocError> {
    let mut text = String::new(alloc);
    let Some(mut session) = session_over(alloc, THREE.as_bytes()) else {
        return Ok(text);
    };
    push_told(&mut text, &mut session, list)?;
    let lines = script_lines(alloc, script)?;
    let mut number = 0u64;
    for line in &lines {
        number = number.saturating_add(1);
        if let Err(fault) = session.edit(alloc, *line) {
            push_fault(alloc, &mut text, fault, number)?;
            return Ok(text);
        }
        push_told(&mut text, &mut session, list)?;
        if !reads_back(alloc, &mut session, list)? {
            text.push_str("not read back; ")?;
        }
    }
    Ok(text)
}

#[test]
fn what_is_told_follows_each_line(rt: HostRuntime) {
    same(
        &rt,
        told(rt.alloc(), b"threshold a . 3", b"c"),
        "greatest a b c available; greatest a b c unmet a; ",
    );
    same(
        &rt,
        told(rt.alloc(), b"retire c\n", b""),
        "greatest a b c available; greatest a b unmet c; ",
    );
    same(
        &rt,
        told(
            rt.alloc(),
            b"add c . 0x\ndeclare d\nthreshold d . 0\ndrop c . b\ndrop c . a\n",
            b"",
        ),
        "greatest a b c available; greatest a b c unmet 0x; greatest a b c unmet 0x d; greatest a b c unmet 0x d; greatest a b c unmet 0x d; greatest a b unmet 0x d; ",
    );
}

#[test]
fn the_first_fault_ends_a_script(rt: HostRuntime) {
    let start = "greatest a b c available; ";
    let rows = [
        (b"drop a . z".as_slice(), "not-there 1; "),
        (b"threshold a .0 1".as_slice(), "no-set 1; "),
        (b"declare a".as_slice(), "already 1; "),
        (b"retire z".as_slice(), "unknown-node 1; "),
        (b"threshold a . 01".as_slice(), "bad-line 1; "),
        (b"\n".as_slice(), "bad-line 1; "),
    ];
    for (script, fault) in &rows {
        let found = told(rt.alloc(), *script, b"");
        let want = format!(in rt.alloc(); "{start}{fault}").expect(&rt, "memory");
        same(&rt, found, &want);
    }
}
