//! Answers of the top call.

ghost use Rattle.std.specs.Prelude.{◌≡◌};
ghost use Rattle.nm_driver.specs.Status.{status_code};

use nm_base::{Limit, Name, Refusal, Room};

/// What the top call answers. A schedule or an image is refused at a line, from 1; `TooLarge` has the bytes needed.
#[derive(Drop)]
pub enum Status {
    Done,
    Refused(Refusal),
    Usage,
    Missing(Name),
    ReadFault,
    WriteFault,
    BadSchedule(u32),
    Limit(Limit),
    TooLarge(Room, u32),
    NoMemory,
    BadImage(u32),
}

impl Status {
    /// The status with which the program ends: 0 to 10, in the order of the variants.
    pub fn code(&self) -> u8
        ensures { result ≡ status_code self.now }
    {
        match self {
            Status::Done => 0,
            Status::Refused(_) => 1,
            Status::Usage => 2,
            Status::Missing(_) => 3,
            Status::ReadFault => 4,
            Status::WriteFault => 5,
            Status::BadSchedule(_) => 6,
            Status::Limit(_) => 7,
            Status::TooLarge(..) => 8,
            Status::NoMemory => 9,
            Status::BadImage(_) => 10,
        }
    }
}
