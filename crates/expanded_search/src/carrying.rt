//! A log over gates written out, carried over to the formula within a budget.
ghost use Rattle.std.specs.Prelude.{◌≡◌, ◌<◌, ◌^◌, [], Ok};
ghost use Rattle.lrat_text.specs.Lent.{lent_step};
ghost use Rattle.cdcl_core.specs.Log.{AreLemmas, IsBoundedLog};
ghost use Rattle.counter_expansion.specs.WrittenOut.{IsWrittenOut};
ghost use Rattle.expanded_search.specs.Carriers.{IsReady, GoesOn, Refutes, WantsUnit};
ghost use Rattle.expanded_search.specs.Found.{IsRefuting, IsSpending};

use crate::carrier::Carrier;
use crate::hints::Bases;
use counter_expansion::Written;
use lrat_text::{Log, StepRef};
use std::alloc::{AllocError, Global};

/// Where a step leads: on; to the empty lemma; to a lemma for which no unit is left; or nowhere, since it is not shown.
#[derive(Clone, Copy, PartialEq, Eq)]
pub enum Led {
    On,
    Refuted,
    Spent,
    Astray,
}

/// Carries one step over. A lemma with a literal takes one of the units that are left.
fn carry_step(
    alloc: Global,
    carrier: &mut Carrier,
    written: &Written,
    bases: Bases,
    step: StepRef<'_>,
    left: &mut u64,
) -> Result<Led, AllocError>
    requires ready { IsReady carrier.old }
    ensures on { result ≡ Ok Led.On → GoesOn written.now.cells.items bases.written bases.formula (lent_step step.entry) carrier.old left.old carrier.new left.new }
    ensures refuted { result ≡ Ok Led.Refuted → Refutes written.now.cells.items (lent_step step.entry) carrier.old carrier.new }
    ensures spent { result ≡ Ok Led.Spent → WantsUnit written.now.cells.items (lent_step step.entry) carrier.old left.old }
    ensures log { result ≡ Ok Led.Spent → carrier.new.log ≡ carrier.old.log }
{
    match step {
        StepRef::Add { id: _, lits, hints } => {
            if !lits.is_empty() && *left == 0 {
                return match carrier.show(alloc, written, bases, lits, hints)? {
                    Some(_) => Ok(Led::Spent),
                    None => Ok(Led::Astray),
                };
            }
            if !carrier.take(alloc, written, bases, lits, hints)? {
                return Ok(Led::Astray);
            }
            if lits.is_empty() {
                return Ok(Led::Refuted);
            }
            *left -= 1;
            Ok(Led::On)
        }
        StepRef::Delete { id: _, ids } => {
            if carrier.delete(alloc, bases, ids)? {
                Ok(Led::On)
            } else {
                Ok(Led::Astray)
            }
        }
    }
}

/// Carries the steps over in order, up to the empty lemma, or to a lemma for which no unit of the budget is left. `On` where the
/// log ends before. Linear in the steps, and for each hint as `Hints::look_for` says.
pub fn carry(
    alloc: Global,
    carrier: &mut Carrier,
    written: &Written,
    log: &Log,
    budget: u64,
) -> Result<Led, AllocError>
    requires ready { IsReady carrier.old }
    requires nothing { carrier.old.log ≡ [] }
    requires out { IsWrittenOut carrier.old.vars carrier.old.checker.database.held written.now }
    requires lemmas { AreLemmas carrier.old.vars written.now.store log.now }
    requires bounded { IsBoundedLog carrier.old.vars log.now }
    ensures refuted { result ≡ Ok Led.Refuted → IsRefuting carrier.old.vars carrier.old.checker.database budget carrier.new.log }
    ensures spent { result ≡ Ok Led.Spent → IsSpending carrier.old.vars carrier.old.checker.database budget carrier.new.log }
{
    let bases = Bases {
        formula: carrier.checker.last(),
        written: written.store.last(),
    };
    let mut left = budget;
    for place in 0..log.len() {
        let led = carry_step(alloc, carrier, written, bases, log.step(place), &mut left)?;
        if led != Led::On {
            return Ok(led);
        }
    }
    Ok(Led::On)
}
