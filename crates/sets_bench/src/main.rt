//! Makes a call of sets or of systems many times, to be timed by `bench/sets.py`.
//!
//! `sets_bench CALL ROUNDS` makes a call of sets of 16,384 nodes ROUNDS times, on two thirds of the nodes and the other third. A
//! node is taken from the first set before each and put back after it, so that no call can be spared. It prints the sum of what
//! the calls gave. The call `nothing` has the cost of these two. `sets_bench system CALL ROUNDS` makes a call of the system of
//! the configuration on standard input, and prints how many nodes it gave; the call `nothing` has the cost of reading.
#![tactic(auto)]

ghost use Rattle.std.specs.Prelude.{◌≡◌, ◌<◌, length};

mod systems;

use crate::systems::{SystemCall, read_system, run_system, system_call_of};
use anyhow::{Context, Result, bail};
use fbas_model::MOST_NODES;
use name_set::NodeSet;
use std::env;

/// How many nodes the sets are of.
const NODES: u32 = MOST_NODES as u32;

/// What is timed.
#[derive(Clone, Copy)]
enum Call {
    Nothing,
    Has,
    Least,
    Count,
    Meets,
    Minus,
    Join,
    Copy,
    Become,
    Members,
}

/// The calls by their names.
static CALLS: [(&str, Call); 10] = [
    ("nothing", Call::Nothing),
    ("has", Call::Has),
    ("least", Call::Least),
    ("count", Call::Count),
    ("meets", Call::Meets),
    ("minus", Call::Minus),
    ("join", Call::Join),
    ("copy", Call::Copy),
    ("copy_from", Call::Become),
    ("members", Call::Members),
];

fn call_of(word: &str) -> Result<Call> {
    for (name, call) in CALLS.iter() {
        if *name == word {
            return Ok(*call);
        }
    }
    bail!("no such call")
}

/// The multiples of 3 among the nodes.
fn thirds() -> NodeSet
    ensures { length result ≡ NODES }
{
    let mut set = NodeSet::new(NODES);
    for v in 0..NODES {
        if v % 3 == 0 {
            set.put(v);
        }
    }
    set
}

/// The sum of the numbers of the members.
fn sum_of(set: &NodeSet) -> u64 {
    let mut sum = 0u64;
    for v in set.iter() {
        sum = sum.wrapping_add(v as u64);
    }
    sum
}

/// Makes the call once.
fn make(call: Call, set: &mut NodeSet, other: &NodeSet, v: u32) -> u64
    requires node { v < length set.old }
    requires same_n { length set.old ≡ length other.now }
    ensures same_n { length set.new ≡ length set.old }
{
    match call {
        Call::Nothing => return 0,
        Call::Has => return set.has(v) as u64,
        Call::Least => return set.least().unwrap_or(0) as u64,
        Call::Count => return set.count() as u64,
        Call::Meets => return set.meets(other) as u64,
        Call::Minus => set.minus(other),
        Call::Join => set.join(other),
        Call::Copy => return set.copy().has(v) as u64,
        Call::Become => set.copy_from(other),
        Call::Members => return sum_of(set),
    }
    0
}

/// Makes the call this many times.
fn run(call: Call, rounds: u32) -> u64 {
    let other = thirds();
    let mut set = NodeSet::new(NODES);
    set.fill();
    set.minus(&other);
    let mut sum = 0u64;
    for round in 0..rounds {
        let v = 3 * (round % (NODES / 3)) + 1;
        set.take(v);
        sum = sum.wrapping_add(make(call, &mut set, &other, v));
        set.put(v);
    }
    sum
}

/// A call of sets or of the system, and how many times it is made.
#[derive(Clone, Copy)]
enum Task {
    Sets(Call, u32),
    System(SystemCall, u32),
}

fn rounds_of(word: Option<&str>) -> Result<u32> {
    let Some(word) = word else {
        bail!("how many rounds?");
    };
    Ok(word.parse().context("rounds are a number")?)
}

fn task_of(first: Option<&str>, second: Option<&str>, third: Option<&str>) -> Result<Task> {
    let Some(call) = first else {
        bail!("which call?");
    };
    if call != "system" {
        let rounds = rounds_of(second)?;
        return Ok(Task::Sets(call_of(call)?, rounds));
    }
    let Some(call) = second else {
        bail!("which call of the system?");
    };
    let rounds = rounds_of(third)?;
    Ok(Task::System(system_call_of(call)?, rounds))
}

/// The task that the words of the command line give.
fn asked(rt: HostRuntime) -> Result<Task> {
    let mut words = env::args(&rt)?;
    words.next();
    let (first, second, third) = (words.next(), words.next(), words.next());
    task_of(first.as_deref(), second.as_deref(), third.as_deref())
}

/// Does what is asked for, and gives the sum.
fn sum_of_task(rt: HostRuntime, task: Task) -> Result<u64> {
    match task {
        Task::Sets(call, rounds) => Ok(run(call, rounds)),
        Task::System(call, rounds) => Ok(run_system(call, &read_system(rt)?, rounds)),
    }
}

fn main(rt: HostRuntime) -> Result<()> {
    let sum = sum_of_task(rt, asked(rt)?)?;
    println!(rt; "{sum}")?;
    Ok(())
}
