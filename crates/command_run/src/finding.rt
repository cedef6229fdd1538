//! A command that searches, by what it finds.
ghost use Rattle.std.specs.Prelude.{◌≡◌, ℕ, Err, IfOk, OnOk};
ghost use Rattle.cli_words.specs.declared.orders.Goal.{Goal};
ghost use Rattle.cert_writer.specs.Promises.{PutsCertificate};
ghost use Rattle.cert_writer.specs.Writing.{IsFresh};
ghost use Rattle.command_run.specs.Sought.{request, FitsPart};
ghost use Rattle.command_run.specs.Meanings.{cert_of, IsCertified, AreTooMany, meaning_of};

use crate::searched::SearchedPart;
use cert_writer::CertWriter;
use desk_io::{Desk, WriteFailed};
use quorum_questions::AskError;
use request_reading::Reply;
use std::alloc::{AllocError, Global};

/// What the search of a command finds: how it is found, what is printed of it, and its certificate.
pub trait Found: Drop {
    /// The command.
    ghost sought: { Goal };

    /// What was found, in the terms of the command's meaning.
    ghost shown: { Self → (meaning_of sought).Finding };

    /// Searches. Clauses that would be too large are not made, and all that is found is certified.
    fn find(alloc: Global, over: &SearchedPart<'_>) -> Result<Self, AskError>
        requires over { FitsPart over.now }
        requires asked { over.now.search.now.goal ≡ sought }
        ensures found { IfOk result (λ x. IsCertified (meaning_of sought) (request over.now.search.now) (shown x)) }
        ensures small { OnOk result ((n : ℕ) → AreTooMany (meaning_of sought).vars over.now.part.now over.now.faulty.now n → ⊥) }
        ensures too_large { (n : ℕ) → result ≡ Err (AskError.TooLarge n) → AreTooMany (meaning_of sought).vars over.now.part.now over.now.faulty.now n };

    /// What is printed of it.
    fn reply(&self, alloc: Global, over: &SearchedPart<'_>) -> Result<Reply, AllocError>
        requires over { FitsPart over.now }
        requires asked { over.now.search.now.goal ≡ sought }
        requires found { IsCertified (meaning_of sought) (request over.now.search.now) (shown self.now) }
        ensures { IfOk result ((meaning_of sought).Replies over.now.part.now over.now.faulty.now over.now.search.now.budget (shown self.now)) };

    /// Writes its certificate to the created file.
    fn write<D: Desk>(
        &self,
        desk: &mut D,
        writer: &mut CertWriter,
        over: &SearchedPart<'_>,
    ) -> Result<(), WriteFailed>
        requires fresh { IsFresh writer.old }
        requires over { FitsPart over.now }
        requires found { IsCertified (meaning_of sought) (request over.now.search.now) (shown self.now) }
        ensures { PutsCertificate D.tells (cert_of (meaning_of sought) (request over.now.search.now) (shown self.now))
            result (D.state desk.old) (D.faults desk.old) (D.state desk.new) (D.faults desk.new) };
}
