//! Why a file is refused.
ghost use Rattle.std.specs.Prelude.{◌≡◌, ◌++◌, codes, OnOk, IfOk};
ghost use Rattle.hex.specs.Hex.{encode_lower};
ghost use Rattle.printed_lines.specs.Lines.{line as spec_line, numbered, worded, config_fault, config_refused as spec_config_refused, orgs_fault, orgs_refused as spec_orgs_refused, cert_fault, cert_refused as spec_cert_refused, literal_word, step_fault, names_fault, names_refused as spec_names_refused, script_fault, script_refused as spec_script_refused, set_fault};

use crate::words::{name_at, push_behind, push_decimal, push_number};
use certificate_file::{CertError, Lit, StepFault};
use name_set::{NameFault, Names};
use node_json::{ConfigFault, OrgFault, SetFault};
use std::alloc::{AllocError, Global};

// The text as a line.
fn line_of(text: Vec<u8>) -> Result<Vec<u8>, AllocError>
    ensures { IfOk result (λ ended. ended.items ≡ spec_line text.items) }
{
    let mut text = text;
    text.push(b'\n')?;
    Ok(text)
}

// A word and a number.
fn numbered_word(alloc: Global, word: &str, number: u64) -> Result<Vec<u8>, AllocError>
    ensures { IfOk result (λ text. text.items ≡ numbered word.now number) }
{
    let mut text = Vec::from_slice(alloc, word.as_bytes())?;
    push_number(&mut text, number)?;
    Ok(text)
}

fn set_word(fault: SetFault) -> &'static str
    ensures { result.now ≡ set_fault fault }
{
    match fault {
        SetFault::Shape => "shape",
        SetFault::Threshold => "threshold",
        SetFault::Validators => "validators",
        SetFault::Inner => "inner",
    }
}

fn bad_quorum_set(alloc: Global, at: u64, fault: SetFault) -> Result<Vec<u8>, AllocError>
    ensures { IfOk result (λ text. text.items ≡ config_fault (ConfigFault.BadQuorumSet at fault)) }
{
    let mut text = numbered_word(alloc, "config bad-quorum-set", at)?;
    push_behind(&mut text, set_word(fault).as_bytes())?;
    Ok(text)
}

fn config_words(alloc: Global, fault: ConfigFault) -> Result<Vec<u8>, AllocError>
    ensures { IfOk result (λ text. text.items ≡ config_fault fault) }
{
    match fault {
        ConfigFault::NotJson => Vec::from_slice(alloc, b"config not-json"),
        ConfigFault::NotNodes => Vec::from_slice(alloc, b"config not-nodes"),
        ConfigFault::NotNode(at) => numbered_word(alloc, "config not-node", at),
        ConfigFault::BadKey(at) => numbered_word(alloc, "config bad-key", at),
        ConfigFault::Duplicate(at) => numbered_word(alloc, "config duplicate", at),
        ConfigFault::TooDeep(at) => numbered_word(alloc, "config too-deep", at),
        ConfigFault::BadQuorumSet(at, fault) => bad_quorum_set(alloc, at, fault),
        ConfigFault::TooManyNodes(n) => numbered_word(alloc, "config too-many-nodes", n),
        ConfigFault::TooManyEntries(n) => numbered_word(alloc, "config too-many-entries", n),
        ConfigFault::Memory => Ok(Vec::new(alloc)),
    }
}

/// The line for a configuration that is refused.
pub fn config_refused(alloc: Global, fault: ConfigFault) -> Result<Vec<u8>, AllocError>
    ensures { IfOk result (λ text. text.items ≡ spec_config_refused fault) }
{
    line_of(config_words(alloc, fault)?)
}

fn orgs_words(alloc: Global, fault: OrgFault) -> Result<Vec<u8>, AllocError>
    ensures { IfOk result (λ text. text.items ≡ orgs_fault fault) }
{
    match fault {
        OrgFault::NotJson => Vec::from_slice(alloc, b"orgs not-json"),
        OrgFault::NotOrgs => Vec::from_slice(alloc, b"orgs not-orgs"),
        OrgFault::BadOrg(at) => numbered_word(alloc, "orgs bad-org", at),
        OrgFault::DuplicateOrg(at) => numbered_word(alloc, "orgs duplicate-org", at),
        OrgFault::TooManyOrgs(n) => numbered_word(alloc, "orgs too-many-orgs", n),
        OrgFault::Memory => Ok(Vec::new(alloc)),
    }
}

/// The line for organisations that are refused.
pub fn orgs_refused(alloc: Global, fault: OrgFault) -> Result<Vec<u8>, AllocError>
    ensures { IfOk result (λ text. text.items ≡ spec_orgs_refused fault) }
{
    line_of(orgs_words(alloc, fault)?)
}

// A word and two digests, which differ.
fn digests(
    alloc: Global,
    word: &str,
    found: &[u8; 32],
    wanted: &[u8; 32],
) -> Result<Vec<u8>, AllocError>
    ensures { IfOk result (λ text. text.items ≡ worded (worded word.now (encode_lower found.now)) (encode_lower wanted.now)) }
{
    let mut text = Vec::from_slice(alloc, word.as_bytes())?;
    push_behind(&mut text, digest_text::digits(found).as_slice())?;
    push_behind(&mut text, digest_text::digits(wanted).as_slice())?;
    Ok(text)
}

fn overlap(alloc: Global, names: &Names, line: u64, node: u32) -> Result<Vec<u8>, AllocError>
    ensures { IfOk result (λ text. text.items ≡ cert_fault names.now (CertError.Overlap line node)) }
{
    let mut text = numbered_word(alloc, "refused overlap", line)?;
    push_behind(&mut text, name_at(names, node))?;
    Ok(text)
}

// A literal as a signed number.
fn push_literal(text: &mut Vec<u8>, literal: Lit) -> Result<(), AllocError>
    ensures { OnOk result (text.new.items ≡ text.old.items ++ literal_word literal) }
{
    if literal.number() < 0 {
        text.push(b'-')?;
    }
    push_decimal(text, u64::from(literal.variable()))
}

// A word and a literal.
fn literal_behind(alloc: Global, word: &str, literal: Lit) -> Result<Vec<u8>, AllocError>
    ensures { IfOk result (λ text. text.items ≡ worded word.now (literal_word literal)) }
{
    let mut text = Vec::from_slice(alloc, word.as_bytes())?;
    text.push(b' ')?;
    push_literal(&mut text, literal)?;
    Ok(text)
}

fn id_order(alloc: Global, last: u64, id: u64) -> Result<Vec<u8>, AllocError>
    ensures { IfOk result (λ text. text.items ≡ step_fault (StepFault.IdOrder last id)) }
{
    let mut text = numbered_word(alloc, "id-order", last)?;
    push_number(&mut text, id)?;
    Ok(text)
}

fn step_words(alloc: Global, fault: &StepFault) -> Result<Vec<u8>, AllocError>
    ensures { IfOk result (λ text. text.items ≡ step_fault fault.now) }
{
    match fault {
        StepFault::IdOrder(last, id) => id_order(alloc, *last, *id),
        StepFault::BadLiteral(literal) => literal_behind(alloc, "bad-literal", *literal),
        StepFault::Tautology(literal) => literal_behind(alloc, "tautology", *literal),
        StepFault::NoSuchClause(id) => numbered_word(alloc, "no-such-clause", *id),
        StepFault::NotUnit(place) => numbered_word(alloc, "not-unit", *place),
        StepFault::NoConflict => Vec::from_slice(alloc, b"no-conflict"),
        StepFault::RatStep(place) => numbered_word(alloc, "rat-step", *place),
        StepFault::RatMissing(id) => numbered_word(alloc, "rat-missing", *id),
        StepFault::Memory => Ok(Vec::new(alloc)),
    }
}

fn step_refused(alloc: Global, line: u64, fault: &StepFault) -> Result<Vec<u8>, AllocError>
    ensures { IfOk result (λ text. text.items ≡ worded (numbered (codes "refused step") line) (step_fault fault.now)) }
{
    let mut text = numbered_word(alloc, "refused step", line)?;
    push_behind(&mut text, step_words(alloc, fault)?.as_slice())?;
    Ok(text)
}

fn cert_words(alloc: Global, names: &Names, fault: &CertError) -> Result<Vec<u8>, AllocError>
    ensures { IfOk result (λ text. text.items ≡ cert_fault names.now fault.now) }
{
    match fault {
        CertError::BadLine(l) => numbered_word(alloc, "refused bad-line", *l),
        CertError::LineTooLong(l) => numbered_word(alloc, "refused line-too-long", *l),
        CertError::TooManyLines => Vec::from_slice(alloc, b"refused too-many-lines"),
        CertError::Digest(found, wanted) => digests(alloc, "refused digest", found, wanted),
        CertError::NoOrgs => Vec::from_slice(alloc, b"refused no-orgs"),
        CertError::OrgsDigest(found, wanted) => {
            digests(alloc, "refused orgs-digest", found, wanted)
        }
        CertError::UnknownNode(l) => numbered_word(alloc, "refused unknown-node", *l),
        CertError::NotQuorum(l) => numbered_word(alloc, "refused not-quorum", *l),
        CertError::NotBlocking(l) => numbered_word(alloc, "refused not-blocking", *l),
        CertError::NotMinimal(l) => numbered_word(alloc, "refused not-minimal", *l),
        CertError::NotSmaller(l) => numbered_word(alloc, "refused not-smaller", *l),
        CertError::Overlap(l, v) => overlap(alloc, names, *l, *v),
        CertError::Formula(l) => numbered_word(alloc, "refused formula", *l),
        CertError::Step(l, fault) => step_refused(alloc, *l, fault),
        CertError::NotNew(l) => numbered_word(alloc, "refused not-new", *l),
        CertError::NotRefuted(l) => numbered_word(alloc, "refused not-refuted", *l),
        CertError::TooLarge(vars) => numbered_word(alloc, "too-large", *vars),
        CertError::Truncated(l) => numbered_word(alloc, "refused truncated", *l),
        CertError::Trailing => Vec::from_slice(alloc, b"refused trailing"),
        CertError::Memory => Ok(Vec::new(alloc)),
    }
}

/// The line for a certificate that is refused, or whose formula is too large.
pub fn cert_refused(alloc: Global, names: &Names, fault: &CertError) -> Result<Vec<u8>, AllocError>
    ensures { IfOk result (λ text. text.items ≡ spec_cert_refused names.now fault.now) }
{
    line_of(cert_words(alloc, names, fault)?)
}

fn name_words(alloc: Global, word: &str, option: &str, at: u64) -> Result<Vec<u8>, AllocError>
    ensures { IfOk result (λ text. text.items ≡ numbered (worded word.now option.now) at) }
{
    let mut text = Vec::from_slice(alloc, word.as_bytes())?;
    push_behind(&mut text, option.as_bytes())?;
    push_number(&mut text, at)?;
    Ok(text)
}

fn names_words(alloc: Global, option: &str, fault: NameFault) -> Result<Vec<u8>, AllocError>
    ensures { IfOk result (λ text. text.items ≡ names_fault option.now fault) }
{
    match fault {
        NameFault::Empty(at) => name_words(alloc, "usage empty-name", option, at),
        NameFault::BadKey(at) => name_words(alloc, "usage bad-name", option, at),
        NameFault::Unknown(at) => name_words(alloc, "usage unknown-name", option, at),
    }
}

fn script_words(
    alloc: Global,
    word: &str,
    line: u64,
    number: Option<u64>,
) -> Result<Vec<u8>, AllocError>
    ensures { IfOk result (λ text. text.items ≡ script_fault word.now line number) }
{
    let mut text = Vec::from_slice(alloc, b"script")?;
    push_behind(&mut text, word.as_bytes())?;
    push_number(&mut text, line)?;
    if let Some(number) = number {
        push_number(&mut text, number)?;
    }
    Ok(text)
}

/// The line for a script that is refused: why, at which line, and how many there would be where too many are the reason.
pub fn script_refused(
    alloc: Global,
    word: &str,
    line: u64,
    number: Option<u64>,
) -> Result<Vec<u8>, AllocError>
    ensures { IfOk result (λ text. text.items ≡ spec_script_refused word.now line number) }
{
    line_of(script_words(alloc, word, line, number)?)
}

/// The line for a list of names that is refused, after this option.
pub fn names_refused(alloc: Global, option: &str, fault: NameFault) -> Result<Vec<u8>, AllocError>
    ensures { IfOk result (λ text. text.items ≡ spec_names_refused option.now fault) }
{
    line_of(names_words(alloc, option, fault)?)
}
