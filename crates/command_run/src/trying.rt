//! Edits of a system, tried one after another: what is so before them and after each, or the first faulty line.
ghost use Rattle.std.specs.Prelude.{◌≡◌, ◌⊎◌, ◌++◌, Ok, Err, IsTrue, IfOk, IfErr, IsErr, OnOk, map};
ghost use Rattle.request_reading.specs.Status.{is_answer};
ghost use Rattle.whatif_session.specs.Scripts.{after_line, states_from, states_of};
ghost use Rattle.command_run.specs.Edits.{edits_answer, fault_line as spec_fault_line, fault_number as spec_fault_number, fault_word as spec_fault_word, state_lines, states_answer};

use request_reading::{Edits, Reply, Status};
use std::alloc::{AllocError, Global};
use whatif_session::{EditFault, ScriptFault, Session, script_lines};

// Why an edit is refused.
fn fault_word(fault: EditFault) -> &'static str
    ensures { result.now ≡ spec_fault_word fault }
{
    match fault {
        EditFault::BadLine => "bad-line",
        EditFault::UnknownNode => "unknown-node",
        EditFault::NoSet => "no-set",
        EditFault::Already => "already",
        EditFault::NotThere => "not-there",
        EditFault::TooManyNodes(_) => "too-many-nodes",
        EditFault::TooManyEntries(_) => "too-many-entries",
        EditFault::Memory => "",
    }
}

// How many there would be, where that is why.
fn fault_number(fault: EditFault) -> Option<u64>
    ensures { result ≡ spec_fault_number fault }
{
    match fault {
        EditFault::TooManyNodes(n) | EditFault::TooManyEntries(n) => Some(n),
        _ => None,
    }
}

// Adds what is so of the system after this many edits.
fn push_state(
    text: &mut Vec<u8>,
    edit: u64,
    session: &mut Session,
    names: &[u8],
) -> Result<(), AllocError>
    ensures said { OnOk result (text.new.items ≡ text.old.items ++ state_lines names.now edit session.old.system) }
    ensures system { session.new.system ≡ session.old.system }
{
    let set = session.marked(names);
    let is_available = session.available(&set);
    printed_lines::push_edit(
        text,
        edit,
        session.system(),
        session.greatest(),
        is_available,
        session.unmet(),
    )
}

// Adds what is so of the system before a line, which stands after this many, and makes its edit.
fn try_line(
    alloc: Global,
    text: &mut Vec<u8>,
    edit: u64,
    session: &mut Session,
    names: &[u8],
    line: &[u8],
) -> Result<(), EditFault>
    ensures said { OnOk result (text.new.items ≡ text.old.items ++ state_lines names.now edit session.old.system) }
    ensures edited { OnOk result (after_line session.old.system line.now ≡ Ok session.new.system) }
    ensures err { IfErr result (λ e. (e ≡ EditFault.Memory) ⊎ (after_line session.old.system line.now ≡ Err e)) }
{
    push_state(text, edit, session, names)?;
    session.edit(alloc, line)
}

// Makes the edits of the lines, and says what is so before them and after each.
fn try_lines(
    alloc: Global,
    session: &mut Session,
    names: &[u8],
    lines: &[&[u8]],
) -> Result<Vec<u8>, ScriptFault>
    ensures said { IfOk result (λ text. states_answer names.now (states_from 1 session.old.system (map (λ line. line.now) lines.now)) ≡ record { status = Status.Yes; text = text.items }) }
    ensures err { IfErr result (λ f. (f.fault ≡ EditFault.Memory) ⊎ (states_from 1 session.old.system (map (λ line. line.now) lines.now) ≡ Err f)) }
{
    let mut text = Vec::new(alloc);
    for (i, line) in lines.iter().enumerate() {
        let edit = i as u64;
        if let Err(fault) = try_line(alloc, &mut text, edit, session, names, line) {
            return Err(ScriptFault {
                line: edit + 1,
                fault,
            });
        }
    }
    match push_state(&mut text, lines.len() as u64, session, names) {
        Ok(()) => Ok(text),
        Err(AllocError) => Err(wanting()),
    }
}

// Memory is wanting, at no line.
fn wanting() -> ScriptFault
    ensures { result.fault ≡ EditFault.Memory }
{
    ScriptFault {
        line: 0,
        fault: EditFault::Memory,
    }
}

// Makes the edits of a script, and says what is so before them and after each.
fn try_script(
    alloc: Global,
    session: &mut Session,
    names: &[u8],
    script: &[u8],
) -> Result<Vec<u8>, ScriptFault>
    ensures said { IfOk result (λ text. states_answer names.now (states_of session.old.system script.now) ≡ record { status = Status.Yes; text = text.items }) }
    ensures err { IfErr result (λ f. (f.fault ≡ EditFault.Memory) ⊎ (states_of session.old.system script.now ≡ Err f)) }
{
    match script_lines(alloc, script) {
        Ok(lines) => try_lines(alloc, session, names, &lines),
        Err(AllocError) => Err(wanting()),
    }
}

// The answer to a script with a fault, or want of memory where that is the fault.
fn refuse(alloc: Global, fault: ScriptFault) -> Result<Reply, AllocError>
    ensures said { IfOk result (λ a. a ≡ record { status = Status.ScriptRefused; text = spec_fault_line fault }) }
    ensures wanting { fault.fault ≡ EditFault.Memory → IsErr result }
{
    let ScriptFault { line, fault: why } = fault;
    if why == EditFault::Memory {
        return Err(AllocError);
    }
    let text = printed_lines::script_refused(alloc, fault_word(why), line, fault_number(why))?;
    Ok(Reply::new(Status::ScriptRefused, text))
}

/// The answer to edits that are tried.
pub fn try_edits(alloc: Global, edits: Edits) -> Result<Reply, AllocError>
    ensures said { IfOk result (λ a. a ≡ edits_answer edits) }
    ensures answers { IfOk result (λ a. IsTrue (is_answer a.status)) }
{
    let Edits {
        system,
        script,
        set,
    } = edits;
    let mut session = Session::start(system);
    let tried = try_script(alloc, &mut session, set.as_str().as_bytes(), script.bytes());
    drop(session);
    match tried {
        Ok(text) => Ok(Reply::new(Status::Yes, text)),
        Err(fault) => refuse(alloc, fault),
    }
}
