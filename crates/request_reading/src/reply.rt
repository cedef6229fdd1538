//! An answer.
ghost use Rattle.std.specs.Prelude.{◌≡◌, IfOk};
ghost use Rattle.cli_words.specs.Usage.{usage};

use crate::status::Status;
use std::alloc::{AllocError, Global};
use std::marker::Model;

/// Text that is read or printed, seen as its bytes.
#[derive(Drop)]
pub struct Text {
    bytes: Vec<u8>,
}

impl Model for Text {
    ghost use Rattle.std.specs.Prelude.{ℕ, List};

    ghost Value = { List ℕ };

    ghost view = { λ t. t.bytes.items };
}

impl Text {
    ghost use Rattle.std.specs.Prelude.{◌≡◌};

    pub fn of(bytes: Vec<u8>) -> Text
        ensures { result ≡ bytes.items }
    {
        Text { bytes }
    }

    pub fn bytes(&self) -> &[u8]
        ensures { result.now ≡ self.now }
    {
        &self.bytes
    }
}

/// A status, and the text that goes to the output.
#[derive(Drop)]
pub struct Reply {
    pub status: Status,
    pub text: Text,
}

impl Reply {
    ghost use Rattle.std.specs.Prelude.{◌≡◌};

    pub fn new(status: Status, bytes: Vec<u8>) -> Reply
        ensures { result ≡ record { status = status; text = bytes.items } }
    {
        let text = Text::of(bytes);
        Reply { status, text }
    }
}

/// An answer of this text.
pub fn says(alloc: Global, status: Status, text: &str) -> Result<Reply, AllocError>
    ensures { IfOk result (λ a. a ≡ record { status = status; text = text.now }) }
{
    Ok(Reply::new(status, Vec::from_slice(alloc, text.as_bytes())?))
}

/// The answer to words that are those of no command: the usage text.
pub fn refuse_usage(alloc: Global) -> Result<Reply, AllocError>
    ensures { IfOk result (λ a. a ≡ record { status = Status.Usage; text = usage }) }
{
    Ok(Reply::new(Status::Usage, cli_words::usage(alloc)?))
}
