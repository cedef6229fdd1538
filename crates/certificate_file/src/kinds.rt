//! The kind line: which body follows.
ghost use Rattle.std.specs.Prelude.{◌≡◌, ◌⊎◌, None, IfOk, IfErr, IfSome, Ok, Err};
ghost use Rattle.cert_lines.specs.Words.{words_of};
ghost use Rattle.reach_kinds.specs.Bodies.{body_begins};
ghost use Rattle.certificate_file.specs.Acceptance.{aim_word, body_named, body_in, is_of_one, is_allowed, body_place, kind_line};
ghost use Rattle.certificate_file.specs.Known.{IsSubject};

use crate::places::{Aim, Body, Place, State, Subject};
use cert_lines::{CertError, Words};
use clause_encoder::Version;
use enumeration_journal::{ListKind, Listed};
use fbas_core::System;
use reach_kinds::{ReachKind, ReachTitle, Scope, body_begins, title_in};
use std::alloc::{AllocError, Global};

/// The word of steps over the formula.
pub fn aim_word(to: Aim) -> &'static str
    ensures { result.now ≡ aim_word to }
{
    match to {
        Aim::Refutation => "refutation",
        Aim::Partial => "partial",
    }
}

/// The body that a word names, if it names one.
fn body_named(word: &[u8]) -> Option<Body>
    ensures { result ≡ body_named word.now }
{
    if word == b"pair".as_slice() {
        return Some(Body::Pair);
    }
    if word == aim_word(Aim::Refutation).as_bytes() {
        return Some(Body::Steps(Aim::Refutation));
    }
    if word == aim_word(Aim::Partial).as_bytes() {
        return Some(Body::Steps(Aim::Partial));
    }
    match title_in(word) {
        Some(title) => Some(Body::Reach(title)),
        None => None,
    }
}

/// The word after the word `kind`, where there is one and nothing else.
fn kind_in(text: &[u8]) -> Option<&[u8]>
    ensures some { IfSome result (λ word. body_in (words_of text.now) ≡ body_named word.now) }
    ensures none { result ≡ None → body_in (words_of text.now) ≡ None }
{
    let mut words = Words::of(text);
    match (words.next(), words.next(), words.next()) {
        (Some(first), Some(word), None) if first == b"kind".as_slice() => Some(word),
        _ => None,
    }
}

/// The body that a line names, if it names one.
fn body_in(text: &[u8]) -> Option<Body>
    ensures { result ≡ body_in (words_of text.now) }
{
    match kind_in(text) {
        Some(word) => body_named(word),
        None => None,
    }
}

/// Whether a certificate of this version may have the body: of those read line by line, version one has lists of blocking sets alone.
fn is_allowed(version: Version, body: Body) -> bool
    ensures { result ≡ is_allowed version body }
{
    match version {
        Version::One => match body {
            Body::Pair | Body::Steps(_) => true,
            Body::Reach(title) => is_of_one(title.shows),
        },
        Version::Two | Version::Three => true,
    }
}

fn is_of_one(shows: ReachKind) -> bool
    ensures { result ≡ is_of_one shows }
{
    match shows {
        ReachKind::Nodes(Listed::Blocking) => true,
        ReachKind::Nodes(Listed::Quorum | Listed::Smaller) | ReachKind::Groups => false,
    }
}

/// The place of the first line of a body of sets of nodes.
fn list_from(
    alloc: Global,
    system: &System,
    sought: Listed,
    kind: ListKind,
    subject: Subject,
) -> Result<Place, AllocError>
    requires { IsSubject system.now subject }
    ensures { IfOk result (λ p. p ≡ Place.AtReach subject (body_begins system.now sought kind subject.nodes subject.header.faulty)) }
{
    let scope = Scope {
        system,
        nodes: &subject.nodes,
        faulty: &subject.header.faulty,
    };
    let place = body_begins(alloc, &scope, sought, kind)?;
    Ok(Place::AtReach(subject, place))
}

/// The place of the line after the kind line.
fn body_place(
    alloc: Global,
    system: &System,
    subject: Subject,
    body: Body,
) -> Result<Place, AllocError>
    requires { IsSubject system.now subject }
    ensures { IfOk result (λ p. p ≡ body_place system.now subject body) }
{
    match body {
        Body::Pair => Ok(Place::AtFirst(subject)),
        Body::Steps(to) => Ok(Place::AtFormula(to, subject)),
        Body::Reach(ReachTitle { shows, kind }) => match shows {
            ReachKind::Nodes(sought) => list_from(alloc, system, sought, kind, subject),
            ReachKind::Groups => Ok(Place::AtOrgs(kind, subject)),
        },
    }
}

/// Line 5: the kind. That of a list costs what its part's greatest quorum does.
pub fn kind_line(
    alloc: Global,
    system: &System,
    line: u64,
    text: &[u8],
    subject: Subject,
) -> Result<State, CertError>
    requires { IsSubject system.now subject }
    ensures ok { IfOk result (λ s. kind_line system.now subject line text.now ≡ Ok s) }
    ensures err { IfErr result (λ e. (e ≡ CertError.Memory) ⊎ (kind_line system.now subject line text.now ≡ Err e)) }
{
    let Some(body) = body_in(text) else {
        return Err(CertError::BadLine(line));
    };
    if !is_allowed(subject.version, body) {
        return Err(CertError::BadLine(line));
    }
    let place = body_place(alloc, system, subject, body)?;
    Ok(State::Going(place))
}
