//! What comes next at a place: steps one after another, or one line as a whole.
ghost use Rattle.std.specs.Prelude.{◌≡◌, ◌+◌, ◌++◌, ◌<◌, ◌≤◌, ◌⊎◌, IsTrue, IfOk, IfErr, IsErrOf, OnOk, Ok, Err};
ghost use Rattle.desk_io.specs.State.{left_of, with_left};
ghost use Rattle.desk_io.specs.Faults.{ReadFails};
ghost use Rattle.cert_lines.specs.Ends.{OnCert};
ghost use Rattle.cert_lines.specs.Lines.{lines_of};
ghost use Rattle.cert_lines.specs.declared.lines.TheConstants.{MAX_LINES};
ghost use Rattle.certificate_file.specs.Acceptance.{check_lines};
ghost use Rattle.certificate_file.specs.Organisations.{FitsGiven};
ghost use Rattle.certificate_file.specs.Known.{IsKnown, IsKnownState};

use crate::given::Given;
use crate::places::{Place, State};
use crate::stepping::{Steps, next_steps};
use crate::taking::take_line;
use cert_lines::{CertError, CheckError, Lines};
use desk_io::{Desk, Which};
use fbas_core::System;
use lrat_stream::StepReader;
use std::alloc::Global;

/// What is so after the next line. Where steps may stand, it is taken with the steps after it, to the first line that begins as
/// no step does or to the empty lemma.
pub fn next_state<D: Desk>(
    alloc: Global,
    lines: &mut Lines,
    desk: &mut D,
    reader: &mut StepReader,
    system: &System,
    given: &Given,
    place: Place,
) -> Result<State, CheckError>
    requires fresh { lines.old.taken ≡ 0 }
    requires fits { FitsGiven system.now given.now }
    requires known { IsKnown system.now given.now place }
    ensures known { IfOk result (IsKnownState system.now given.now) }
    ensures few { OnOk result (lines.new.number ≤ MAX_LINES + 1) }
    ensures number { OnOk result (lines.old.number < lines.new.number) }
    ensures taken { OnOk result (lines.new.taken ≡ 0) }
    ensures ok { IfOk result (λ s. IsTrue D.tells → check_lines system.now given.now lines.old.number (State.Going place) (lines_of (lines.old.unread ++ left_of Which.Cert (D.state desk.old)))
        ≡ check_lines system.now given.now lines.new.number s (lines_of (lines.new.unread ++ left_of Which.Cert (D.state desk.new)))) }
    ensures err { IfErr result (λ e. IsTrue D.tells → OnCert e (λ fault. (fault ≡ CertError.Memory)
        ⊎ (check_lines system.now given.now lines.old.number (State.Going place) (lines_of (lines.old.unread ++ left_of Which.Cert (D.state desk.old))) ≡ Err fault))) }
    ensures plain { IsErrOf result CheckError.Read → IsTrue D.tells → IsTrue (D.state desk.old).plain → ⊥ }
    ensures rest { IsTrue D.tells → D.state desk.new ≡ with_left Which.Cert (left_of Which.Cert (D.state desk.new)) (D.state desk.old) }
    ensures faults { ReadFails (D.faults desk.old) (D.faults desk.new) (IsErrOf result CheckError.Read) }
{
    match Steps::of(place) {
        Ok(steps) => next_steps(alloc, lines, desk, reader, system, given, steps),
        Err(other) => {
            let line = lines.number();
            match lines.line(alloc, desk) {
                Ok(text) => Ok(take_line(alloc, system, given, other, line, &text)?),
                Err(fault) => {
                    drop(other);
                    Err(fault)
                }
            }
        }
    }
}
