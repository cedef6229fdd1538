//! `quorum_cli`, an analyser of federated Byzantine agreement systems.
#![tactic(auto)]

ghost use Rattle.std.specs.Prelude.{◌≡◌, IfSome, IsNone};
ghost use Rattle.request_reading.specs.declared.status.Status.TheVariants.{Memory};
ghost use Rattle.desk_io.specs.RealDesk.{faults_of};
ghost use Rattle.command_run.specs.Ended.{desk_of, status_of};
ghost use Rattle.command_run.specs.Ending.{words_given};
ghost use Rattle.quorum_cli.specs.Ending.{RunsFresh};

use command_run::{Ended, Exit, end};
use desk_io::RealDesk;
use std::{env, io};

/// How the run of the arguments ended, on the machine's desk, which is made for it.
fn end_on_machine(rt: &HostRuntime, args: io::Result<env::Args>) -> Ended<RealDesk<'_, HostRuntime>>
    ensures ran { IfSome (words_given args) (λ words. RunsFresh words (faults_of (desk_of result)) (status_of result)) }
    ensures memory { IsNone (words_given args) → status_of result ≡ Memory }
{
    end(rt.alloc(), args, RealDesk::new(rt))
}

fn main(rt: HostRuntime) -> Exit {
    end_on_machine(&rt, env::args(&rt)).exit()
}
