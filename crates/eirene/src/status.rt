//! How a run ends.
ghost use Rattle.std.specs.Prelude.{◌≡◌, option_map};

/// How a run ended.
#[derive(Clone, Copy, Debug, PartialEq, Eq)]
pub enum Status {
    /// The input was read to its end and answered.
    Done,
    /// A certificate breaks a rule.
    CheckNo,
    /// The words have no reading.
    BadWords,
    /// A read failed.
    ReadFault,
    /// A write failed.
    WriteFault,
    /// There was no memory.
    Memory,
    /// The input has more bytes than the command takes.
    InputTooLong,
    /// A load or a store failed.
    ShelfFault,
}

impl Status {
    ghost use Rattle.eirene.specs.Statuses.{status_number, status_text};

    /// The exit status.
    pub fn number(self) -> u8
        ensures { result ≡ status_number self }
    {
        match self {
            Status::Done => 0,
            Status::CheckNo => 1,
            Status::BadWords => 2,
            Status::ReadFault => 3,
            Status::WriteFault => 4,
            Status::Memory => 5,
            Status::InputTooLong => 6,
            Status::ShelfFault => 7,
        }
    }

    /// The text for standard error.
    pub fn message(self) -> Option<&'static str>
        ensures { option_map (λ s. s.now) result ≡ status_text self }
    {
        match self {
            Status::Done | Status::CheckNo => None,
            Status::BadWords => Some("eirene: bad words"),
            Status::ReadFault => Some("eirene: read fault"),
            Status::WriteFault => Some("eirene: write fault"),
            Status::Memory => Some("eirene: out of memory"),
            Status::InputTooLong => Some("eirene: input too long"),
            Status::ShelfFault => Some("eirene: shelf fault"),
        }
    }
}
