//! The calls of a system.

ghost use Rattle.std.specs.Prelude.{◌≡◌, ◌≤◌, length};

use anyhow::{Result, bail};
use fbas_core::System;
use fbas_model::MOST_NODES;
use greatest_quorum::{blocks, greatest};
use name_set::NodeSet;
use node_json::read_config;
use std::io::Read;

/// What is timed.
#[derive(Clone, Copy)]
pub enum SystemCall {
    Nothing,
    Greatest,
    Blocks,
    Closure,
}

pub fn system_call_of(word: &str) -> Result<SystemCall> {
    Ok(match word {
        "nothing" => SystemCall::Nothing,
        "greatest" => SystemCall::Greatest,
        "blocks" => SystemCall::Blocks,
        "closure" => SystemCall::Closure,
        _ => bail!("no such call"),
    })
}

/// The bytes on standard input.
fn read_input(rt: HostRuntime) -> Result<Vec<u8>> {
    let mut bytes = Vec::new(rt.alloc());
    rt.reader().read_to_end(&mut bytes)?;
    Ok(bytes)
}

/// The system of the configuration on standard input.
pub fn read_system(rt: HostRuntime) -> Result<System> {
    let bytes = read_input(rt)?;
    match read_config(rt.alloc(), &bytes) {
        Ok(system) => Ok(system),
        Err(_) => bail!("no configuration"),
    }
}

/// The two of each three nodes that are tried whether they block.
fn two_thirds(n: u32) -> NodeSet
    requires { n ≤ MOST_NODES }
    ensures { length result ≡ n }
{
    let mut set = NodeSet::new(n);
    for v in 0..n {
        if v % 3 != 0 {
            set.put(v);
        }
    }
    set
}

/// Makes the call once, and gives how many nodes it found.
fn make(call: SystemCall, system: &System, scratch: &mut NodeSet) -> u64
    requires { length scratch.old ≡ length system.now.sets }
    ensures { length scratch.new ≡ length scratch.old }
{
    let faulty = NodeSet::new(system.len());
    match call {
        SystemCall::Nothing => 0,
        SystemCall::Greatest => greatest(system, &faulty).count() as u64,
        SystemCall::Blocks => blocks(system, &two_thirds(system.len()), &faulty, scratch) as u64,
        SystemCall::Closure => {
            if system.len() == 0 {
                return 0;
            }
            system.closure(0).count() as u64
        }
    }
}

/// Makes the call this many times, and gives how many nodes it found in all.
pub fn run_system(call: SystemCall, system: &System, rounds: u32) -> u64 {
    let mut scratch = NodeSet::new(system.len());
    let mut sum = 0u64;
    for _round in 0..rounds {
        sum = sum.wrapping_add(make(call, system, &mut scratch));
    }
    sum
}
