//! How the program ends.
ghost use Rattle.std.specs.Prelude.{◌≡◌};
ghost use Rattle.request_reading.specs.Status.{code_of};

/// How the program ends: with an answer, or with a failing of the outside or of the memory.
#[derive(Clone, Copy, Debug, PartialEq, Eq)]
pub enum Status {
    /// Yes, shown or accepted.
    Yes,
    /// No.
    No,
    /// The budget is spent, or a partial certificate is accepted.
    Unknown,
    /// The command line is refused.
    Usage,
    /// The configuration is refused.
    ConfigRefused,
    /// The certificate is refused.
    CertRefused,
    /// A file could not be read.
    ReadFault,
    /// The output could not be written.
    WriteFault,
    /// There was not enough memory.
    Memory,
    /// The formula has too many variables.
    TooLarge,
    /// The script of edits is refused.
    ScriptRefused,
}

impl Status {
    /// The number that the process ends with.
    pub fn code(self) -> u8
        ensures { result ≡ code_of self }
    {
        match self {
            Status::Yes => 0,
            Status::No => 1,
            Status::Unknown => 2,
            Status::Usage => 3,
            Status::ConfigRefused => 4,
            Status::CertRefused => 5,
            Status::ReadFault => 6,
            Status::WriteFault => 7,
            Status::Memory => 8,
            Status::TooLarge => 9,
            Status::ScriptRefused => 10,
        }
    }
}
