//! The text of an answer, put out.
ghost use Rattle.std.specs.Prelude.{◌≡◌, ◌⊎◌, IsTrue};
ghost use Rattle.desk_io.specs.Faults.{WriteFails};
ghost use Rattle.request_reading.specs.Status.{is_answer};
ghost use Rattle.command_run.specs.Printing.{PrintsAnswer, PrintsAnswerPart};

use desk_io::{Desk, To, WriteFailed, put_all};
use request_reading::{Reply, Status};

/// Puts the text of an answer to the output.
pub fn print<D: Desk>(desk: &mut D, reply: &Reply) -> Status
    requires { IsTrue (is_answer reply.now.status) }
    ensures printed { IsTrue D.tells → IsTrue (is_answer result) → PrintsAnswer reply.now (D.state desk.old) (D.state desk.new) result }
    ensures part { IsTrue D.tells → result ≡ Status.WriteFault → PrintsAnswerPart reply.now (D.state desk.old) (D.state desk.new) }
    ensures status { (result ≡ reply.now.status) ⊎ (result ≡ Status.WriteFault) }
    ensures left { IsTrue D.tells → (D.state desk.new).left ≡ (D.state desk.old).left }
    ensures faults { WriteFails (D.faults desk.old) (D.faults desk.new) (result ≡ Status.WriteFault) }
{
    match put_all(desk, To::Out, reply.text.bytes()) {
        Ok(()) => reply.status,
        Err(WriteFailed) => Status::WriteFault,
    }
}
