//! What is odd in the quorum sets of a system.
ghost use Rattle.std.specs.Prelude.{◌≡◌, ◌≤◌, ◌<◌, ◌++◌, ◌∷◌, ℕ, length, decimal, OnOk, IfOk, IfSome};
ghost use Rattle.fbas_model.specs.QuorumSets.{all_entries};
ghost use Rattle.fbas_model.specs.declared.TheConstants.{MOST_ENTRIES};
ghost use Rattle.quorum_set.specs.Findings.{found, found_all, findings_of};
ghost use Rattle.printed_lines.specs.Lines.{dotted, path_of, finding_head as head, finding_line, finding_lines, found_lines, shown as spec_shown};

use crate::words::{counts, name_at, push_behind, push_decimal, push_number, push_word};
use fbas_core::System;
use name_set::Names;
use quorum_set::{Finding, QuorumSet};
use std::alloc::{AllocError, Global};

// Adds a dot and a number.
fn push_step(text: &mut Vec<u8>, at: u32) -> Result<(), AllocError>
    ensures { OnOk result (text.new.items ≡ text.old.items ++ 46 ∷ decimal at) }
{
    text.push(b'.')?;
    push_decimal(text, at as u64)
}

// Adds each number with a dot before it.
fn push_dotted(text: &mut Vec<u8>, path: &[u32]) -> Result<(), AllocError>
    ensures { OnOk result (text.new.items ≡ text.old.items ++ dotted path.now) }
{
    for at in path {
        push_step(text, *at)?;
    }
    Ok(())
}

// Adds a space and the path of a quorum set.
fn push_path(text: &mut Vec<u8>, path: &[u32]) -> Result<(), AllocError>
    ensures { OnOk result (text.new.items ≡ text.old.items ++ 32 ∷ path_of path.now) }
{
    push_word(text, " ")?;
    if path.is_empty() {
        return push_word(text, ".");
    }
    push_dotted(text, path)
}

// Adds the words before what is found: what it is, the node and the path.
fn push_head(
    text: &mut Vec<u8>,
    names: &Names,
    word: &str,
    node: u32,
    path: &[u32],
) -> Result<(), AllocError>
    ensures { OnOk result (text.new.items ≡ text.old.items ++ head word.now names.now node path.now) }
{
    push_word(text, word)?;
    push_behind(text, name_at(names, node))?;
    push_path(text, path)
}

// Adds the line of what is found in the quorum set of a node.
fn push_finding(
    text: &mut Vec<u8>,
    names: &Names,
    node: u32,
    finding: &Finding,
) -> Result<(), AllocError>
    ensures { OnOk result (text.new.items ≡ text.old.items ++ finding_line names.now node (found finding.now)) }
{
    match finding {
        Finding::BadThreshold(path, threshold, entries) => {
            push_head(text, names, "threshold", node, path)?;
            push_number(text, *threshold)?;
            push_number(text, *entries)?;
        }
        Finding::Repeated(path, repeated) => {
            push_head(text, names, "repeated", node, path)?;
            push_behind(text, name_at(names, *repeated))?;
        }
    }
    push_word(text, "\n")
}

// Adds the lines of what is found in the quorum set of a node.
fn push_findings(
    text: &mut Vec<u8>,
    names: &Names,
    node: u32,
    findings: &[Finding],
) -> Result<(), AllocError>
    ensures { OnOk result (text.new.items ≡ text.old.items ++ finding_lines names.now node (found_all findings.now)) }
{
    for finding in findings {
        push_finding(text, names, node, finding)?;
    }
    Ok(())
}

// Adds what is found in the quorum set of a node.
fn push_found(
    alloc: Global,
    text: &mut Vec<u8>,
    names: &Names,
    node: u32,
    set: &QuorumSet,
) -> Result<(), AllocError>
    requires { all_entries set.now ≤ MOST_ENTRIES }
    ensures { OnOk result (text.new.items ≡ text.old.items ++ finding_lines names.now node (findings_of set.now)) }
{
    let mut findings = Vec::new(alloc);
    set.findings(alloc, &mut findings)?;
    push_findings(text, names, node, &findings)
}

// Adds what is found in the quorum sets of all nodes.
fn push_all_found(alloc: Global, text: &mut Vec<u8>, system: &System) -> Result<(), AllocError>
    ensures { OnOk result (text.new.items ≡ text.old.items ++ found_lines system.now.names 0 system.now.sets) }
{
    for node in 0..system.len() {
        if let Some(set) = system.quorum_set(node) {
            push_found(alloc, text, system.names(), node, set)?;
        }
    }
    Ok(())
}

/// The answer to `show`: the size of a system, and what is odd in its quorum sets, by node in name order.
/// Linear in the entries of the quorum sets but for look-ups of their nodes.
pub fn shown(alloc: Global, system: &System) -> Result<Vec<u8>, AllocError>
    ensures { IfOk result (λ text. text.items ≡ spec_shown system.now) }
{
    let mut text = counts(alloc, system)?;
    push_all_found(alloc, &mut text, system)?;
    Ok(text)
}
