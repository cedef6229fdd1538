//! The gates of a system's formula, written out, and searches over them.

ghost use Rattle.std.specs.Prelude.{◌≡◌, ◌<◌, ◌^◌, length};
ghost use Rattle.lrat_model.specs.Ranges.{AreInRange};

use crate::shared::same;
use clause_encoder::{Version, encode};
use clause_store::Store;
use counter_expansion::{Written, write_out};
use expanded_search::{Found, search};
use fbas_core::System;
use greatest_quorum::greatest;
use name_set::{NodeSet, read_names};
use node_json::read_config;
use std::alloc::{AllocError, Global};

// each of four nodes wants three of them, and each of four two
static THREE_OF_FOUR: &str =
    r#"[{"publicKey":"a","quorumSet":{"threshold":3,"validators":["a","b","c","d"]}},{"publicKey":"b","quorumSet":{"threshold":3,"validators":["a","b","c","d"]}},{"publicKey":"c","quorumSet":{"threshold":3,"validators":["a","b","c","d"]}},{"publicKey":"d","quorumSet":{"threshold":3,"validators":["a","b","c","d"]}}]"#;

static TWO_OF_FOUR: &str =
    r#"[{"publicKey":"a","quorumSet":{"threshold":2,"validators":["a","b","c","d"]}},{"publicKey":"b","quorumSet":{"threshold":2,"validators":["a","b","c","d"]}},{"publicKey":"c","quorumSet":{"threshold":2,"validators":["a","b","c","d"]}},{"publicKey":"d","quorumSet":{"threshold":2,"validators":["a","b","c","d"]}}]"#;

/// The names of seventeen nodes.
static SEVENTEEN: &str = r#""a","b","c","d","e","f","g","h","i","j","k","l","m","n","o","p","q""#;

/// The configuration of seventeen nodes, each of which wants this many of them.
fn of_seventeen(alloc: Global, threshold: u64) -> Result<String, AllocError> {
    let mut text = String::from_str(alloc, "[")?;
    for name in SEVENTEEN.split(',') {
        if text.len() > 1 {
            text.push_str(",")?;
        }
        text.push_str("{\"publicKey\":")?;
        text.push_str(name)?;
        let wanted = format!(in alloc;
            ",\"quorumSet\":{{\"threshold\":{},\"validators\":[{}]}}}}",
            threshold, SEVENTEEN
        )?;
        text.push_str(&wanted)?;
    }
    text.push_str("]")?;
    Ok(text)
}

/// What is asked of a formula with this many variables: its gates and clauses, written out, or what a search within some units
/// finds.
#[derive(Clone, Copy)]
enum Asked {
    Gates,
    Search(u64),
}

/// The gates that are written out, and how many clauses there are then.
fn gates_in(alloc: Global, written: &Written) -> Result<String, AllocError> {
    let mut text = String::new(alloc);
    for counter in &written.counters {
        let gate = format!(in alloc;
            "{} of {:?} for {:?}, ",
            counter.threshold, counter.inputs, counter.heads
        )?;
        text.push_str(&gate)?;
        if counter.keeps_last {
            text.push_str("which goes on, ")?;
        }
    }
    let clauses = format!(in alloc; "{} clauses", written.store.last())?;
    text.push_str(&clauses)?;
    Ok(text)
}

/// What was found.
fn found_in(alloc: Global, found: &Option<Found>) -> Result<String, AllocError> {
    match found {
        Some(Found::Refuted(log)) => format!(in alloc; "refuted in {} steps", log.len()),
        Some(Found::Spent(log)) => format!(in alloc; "spent after {} steps", log.len()),
        Some(Found::Told(values)) => format!(in alloc; "told {} values", values.len()),
        None => String::from_str(alloc, "nowhere"),
    }
}

/// The answer to what is asked.
fn answer(alloc: Global, store: &Store, vars: u64, asked: Asked) -> Result<String, AllocError>
    requires small { vars < 2 ^ 31 }
    requires range { AreInRange vars store.now.held }
{
    match asked {
        Asked::Gates => match write_out(alloc, store, vars)? {
            Some(written) => gates_in(alloc, &written),
            None => String::from_str(alloc, "none"),
        },
        Asked::Search(units) => {
            let found = search(alloc, store, vars, units.min(1000))?;
            found_in(alloc, &found)
        }
    }
}

/// The same of a system.
fn answer_of(
    alloc: Global,
    system: &System,
    faulty: &NodeSet,
    asked: Asked,
) -> Result<String, AllocError>
    requires { length faulty.now ≡ length system.now.sets }
{
    let greatest = greatest(system, faulty);
    match encode(alloc, Version::Two, system, faulty, &greatest) {
        Ok((store, map)) => answer(alloc, &store, map.vars(), asked),
        Err(_) => Err(AllocError),
    }
}

/// The same of a configuration.
fn asked_of(alloc: Global, config: &str, asked: Asked) -> Result<String, AllocError> {
    let Ok(system) = read_config(alloc, config.as_bytes()) else {
        return Err(AllocError);
    };
    let Ok(faulty) = read_names("".as_bytes(), system.names()) else {
        return Err(AllocError);
    };
    answer_of(alloc, &system, &faulty, asked)
}

#[test]
fn a_gate_is_written_out_as_sets_of_its_inputs(rt: HostRuntime) {
    let found = asked_of(rt.alloc(), THREE_OF_FOUR, Asked::Gates);
    same(
        &rt,
        found,
        "3 of [1, 2, 3, 4] for [1, 2, 3, 4], 3 of [5, 6, 7, 8] for [5, 6, 7, 8], 30 clauses",
    );
}

#[test]
fn a_search_over_gates_written_out_refutes(rt: HostRuntime) {
    let found = asked_of(rt.alloc(), THREE_OF_FOUR, Asked::Search(1000));
    same(&rt, found, "refuted in 5 steps");
}

#[test]
fn a_search_over_gates_written_out_spends_its_units(rt: HostRuntime) {
    let found = asked_of(rt.alloc(), THREE_OF_FOUR, Asked::Search(2));
    same(&rt, found, "spent after 2 steps");
}

#[test]
fn a_search_over_gates_written_out_tells(rt: HostRuntime) {
    let found = asked_of(rt.alloc(), TWO_OF_FOUR, Asked::Search(1000));
    same(&rt, found, "told 22 values");
}

#[test]
fn first_rows_are_written_out_of_a_gate_with_many_sets(rt: HostRuntime) {
    let alloc = rt.alloc();
    let found = match of_seventeen(alloc, 11) {
        Ok(config) => asked_of(alloc, &config, Asked::Gates),
        Err(error) => Err(error),
    };
    same(
        &rt,
        found,
        "11 of [1, 2, 3, 4, 5, 6, 7] for [], which goes on, 11 of [18, 19, 20, 21, 22, 23, 24] for [], which goes on, 705 clauses",
    );
}

#[test]
fn a_search_over_first_rows_tells(rt: HostRuntime) {
    let alloc = rt.alloc();
    let found = match of_seventeen(alloc, 8) {
        Ok(config) => asked_of(alloc, &config, Asked::Search(1000)),
        Err(error) => Err(error),
    };
    same(&rt, found, "told 250 values");
}

#[test]
fn a_search_over_first_rows_refutes(rt: HostRuntime) {
    let alloc = rt.alloc();
    let found = match of_seventeen(alloc, 11) {
        Ok(config) => asked_of(alloc, &config, Asked::Search(1000)),
        Err(error) => Err(error),
    };
    same(&rt, found, "refuted in 260 steps");
}
