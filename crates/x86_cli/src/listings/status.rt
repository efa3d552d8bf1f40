//! How a run ends.

ghost use Rattle.std.specs.Prelude.{◌≡◌};
ghost use Rattle.x86_cli.specs.Listings.Status.{code};

use x86_streams::WriteFailed;

/// How a run ended.
#[derive(Clone, Copy, PartialEq, Eq, Debug, Drop)]
pub enum Status {
    /// All that is listed was written. A text was read to its end.
    Done,
    /// The arguments request nothing. Nothing was read or written.
    Usage,
    /// The listing ended in a refusal.
    Refused,
    /// A byte of the text isn't allowed at its place.
    BadText,
    /// The source failed, and the listing reached that place.
    ReadFault,
    /// The sink failed.
    WriteFault,
    /// The text has more bytes than are read.
    TooLarge,
}

impl Status {
    /// The status that the program ends with: 0, 2, 3, 4, 5, 6 and 7 in the order of the variants.
    pub fn code(&self) -> u8
        ensures { result ≡ code self.now }
    {
        match self {
            Status::Done => 0,
            Status::Usage => 2,
            Status::Refused => 3,
            Status::BadText => 4,
            Status::ReadFault => 5,
            Status::WriteFault => 6,
            Status::TooLarge => 7,
        }
    }
}

/// How a program ended.
#[derive(Clone, Copy, Drop)]
pub struct Finished {
    pub status: Status,
    /// Whether the last call of the writer answered that nobody reads what is written.
    pub gone: bool,
}

impl Finished {
    /// The writer took no more.
    pub fn of_failed(failed: WriteFailed) -> Finished
        ensures status { result.status ≡ Status.WriteFault }
        ensures gone { result.gone ≡ failed.gone }
    {
        Finished {
            status: Status::WriteFault,
            gone: failed.gone,
        }
    }
}
