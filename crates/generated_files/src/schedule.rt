//! The rows of the schedule.

ghost use Rattle.std.specs.Prelude.{◌≡◌, ◌<◌};
ghost use Rattle.generated_files.specs.Schedule as spec;

use mote_devices::{Due, Given};

// Row `i`.
fn arrival(i: u16) -> Due
    requires { i < 10 }
    ensures { result ≡ spec.arrival i }
{
    Due {
        slot: 900_000 + 1000 * u32::from(i),
        given: Given::Arrive(2, i),
    }
}

/// The rows of the schedule of every such application: the values 0 to 9 for the device in slot 2 of the board, a thousand slots apart
/// from slot 900,000 on.
pub fn gen_rows() -> [Due; 10]
    ensures { result ≡ spec.generated_rows }
{
    [
        arrival(0),
        arrival(1),
        arrival(2),
        arrival(3),
        arrival(4),
        arrival(5),
        arrival(6),
        arrival(7),
        arrival(8),
        arrival(9),
    ]
}
