//! What the words ask for.
ghost use Rattle.std.specs.Prelude.{◌≤◌, IfOk};

use anyhow::{Context, Result, bail};
use std::env;
use trial_network::MOST_ORGANISATIONS;

/// What is to be done, by the word for it.
#[derive(Drop)]
pub enum Task {
    /// The formula of a file is solved.
    File(String),
    /// That of a trial configuration is solved.
    Trial(String),
}

/// The task that the words of the command line give.
pub fn asked(rt: &HostRuntime) -> Result<Task> {
    let mut words = env::args(rt)?;
    words.next();
    let (first, second) = (words.next(), words.next());
    task_of(first, second)
}

fn task_of(first: Option<String>, second: Option<String>) -> Result<Task> {
    let first = first.context("how many organisations?")?;
    if first.as_str() != "file" {
        return Ok(Task::Trial(first));
    }
    Ok(Task::File(second.context("which file?")?))
}

/// The number of organisations.
pub fn organisations_of(word: &str) -> Result<u32>
    ensures some { IfOk result (λ organisations. 1 ≤ organisations) }
    ensures few { IfOk result (λ organisations. organisations ≤ MOST_ORGANISATIONS) }
{
    let organisations: u32 = word.parse().context("the number of organisations")?;
    if organisations == 0 || organisations > MOST_ORGANISATIONS {
        bail!("organisations are 1 to 100");
    }
    Ok(organisations)
}
