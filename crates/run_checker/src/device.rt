//! The device table, computed on the states of devices.

ghost use Rattle.std.specs.Prelude.{◌≡◌, ◌/◌, ◌==◌, ◌||◌};
ghost use Rattle.mote_devices.specs.Device as table;
ghost use Rattle.mote_devices.specs.declared.state.DevState.TheVariants as dev;

use mote_devices::DevState;

/// What a value from outside leaves.
pub(crate) fn arrived(d: DevState, given: u16) -> DevState
    ensures { result ≡ table.dev_arrive d given }
{
    match d {
        DevState::Leds { .. } => d,
        DevState::Timer {
            on,
            period,
            left,
            flag,
        } => timer_arrived(on, period, left, flag, given),
        DevState::Serial { full, over, .. } => DevState::Serial {
            rx: given % 256,
            full: true,
            over: over || full,
            flag: true,
        },
        DevState::Radio {
            on,
            addr,
            full,
            lost,
            ..
        } => {
            if on && is_for(addr, given) {
                DevState::Radio {
                    on,
                    addr,
                    rx: given,
                    full: true,
                    lost: lost || full,
                    flag: true,
                }
            } else {
                d
            }
        }
        DevState::Sensor { asked, flag, .. } => DevState::Sensor {
            value: given,
            asked: false,
            flag: asked || flag,
        },
    }
}

fn timer_arrived(on: bool, period: u16, left: u16, flag: bool, given: u16) -> DevState
    ensures { result ≡ table.dev_arrive (dev.Timer on period left flag) given }
{
    if on && given < left {
        return DevState::Timer {
            on,
            period,
            left: left - given,
            flag,
        };
    }
    DevState::Timer {
        on,
        period,
        left: if on { period } else { left },
        flag: on || flag,
    }
}

// The high byte is the address, or the one of all.
fn is_for(addr: u16, given: u16) -> bool
    ensures { result ≡ (given / 256 == addr || given / 256 == 255) }
{
    given / 256 == addr || given / 256 == 255
}

// The word of this register.
#[tactic(auto, using(crate::proofs::DeviceLemmas::registers))]
fn word_at(register: u8, first: u16, second: u16, third: u16, fourth: u16) -> u16
    ensures { result ≡ table.at_register register first second third fourth }
{
    match register {
        0 => first,
        1 => second,
        2 => third,
        _ => fourth,
    }
}

// The state that this register leaves.
#[tactic(auto, using(crate::proofs::DeviceLemmas::registers))]
fn state_at(
    register: u8,
    first: DevState,
    second: DevState,
    third: DevState,
    fourth: DevState,
) -> DevState
    ensures { result ≡ table.at_register register first second third fourth }
{
    match register {
        0 => first,
        1 => second,
        2 => third,
        _ => fourth,
    }
}

/// The answer to a read of a register.
pub(crate) fn answer(d: DevState, register: u8) -> u16
    ensures { result ≡ table.dev_answer d register }
{
    match d {
        DevState::Leds { value } => word_at(register, value, 0, 0, 0),
        DevState::Timer {
            on,
            period,
            left,
            flag,
        } => word_at(register, u16::from(on), period, left, u16::from(flag)),
        DevState::Serial { rx, full, over, .. } => word_at(
            register,
            rx,
            u16::from(full) + 2 * u16::from(over),
            0,
            0,
        ),
        DevState::Radio {
            on,
            addr,
            rx,
            full,
            lost,
            ..
        } => word_at(
            register,
            rx,
            u16::from(on),
            u16::from(full) + 2 * u16::from(lost),
            addr,
        ),
        DevState::Sensor { value, asked, .. } => word_at(register, value, u16::from(asked), 0, 0),
    }
}

/// What the read leaves.
pub(crate) fn after_read(d: DevState, register: u8) -> DevState
    ensures { result ≡ table.dev_read d register }
{
    match d {
        DevState::Leds { .. } | DevState::Timer { .. } | DevState::Sensor { .. } => d,
        DevState::Serial { rx, flag, .. } => {
            let read = DevState::Serial {
                rx,
                full: false,
                over: false,
                flag,
            };
            state_at(register, read, d, d, d)
        }
        DevState::Radio {
            on,
            addr,
            rx,
            flag,
            ..
        } => {
            let read = DevState::Radio {
                on,
                addr,
                rx,
                full: false,
                lost: false,
                flag,
            };
            state_at(register, read, d, d, d)
        }
    }
}

/// What a write of a register leaves.
pub(crate) fn written(d: DevState, register: u8, word: u16) -> DevState
    ensures { result ≡ table.dev_write d register word }
{
    match d {
        DevState::Leds { .. } => state_at(register, DevState::Leds { value: word % 8 }, d, d, d),
        DevState::Timer {
            on,
            period,
            left,
            flag,
        } => timer_written(on, period, left, flag, register, word),
        DevState::Serial { .. } => d,
        DevState::Radio {
            on,
            addr,
            rx,
            full,
            lost,
            flag,
        } => {
            let opened = DevState::Radio {
                on: word % 2 == 1,
                addr,
                rx,
                full,
                lost,
                flag,
            };
            let named = DevState::Radio {
                on,
                addr: word % 256,
                rx,
                full,
                lost,
                flag,
            };
            state_at(register, d, opened, d, named)
        }
        DevState::Sensor { value, flag, .. } => {
            let asked = DevState::Sensor {
                value,
                asked: word % 2 == 1,
                flag,
            };
            state_at(register, d, asked, d, d)
        }
    }
}

fn timer_written(on: bool, period: u16, left: u16, flag: bool, register: u8, word: u16) -> DevState
    ensures { result ≡ table.dev_write (dev.Timer on period left flag) register word }
{
    let started = DevState::Timer {
        on: word % 2 == 1,
        period,
        left: if word % 2 == 1 { period } else { left },
        flag,
    };
    let set = DevState::Timer {
        on,
        period: if word == 0 { 1 } else { word },
        left,
        flag,
    };
    let kept = DevState::Timer {
        on,
        period,
        left,
        flag,
    };
    let answered = DevState::Timer {
        on,
        period,
        left,
        flag: false,
    };
    state_at(register, started, set, kept, answered)
}

/// Whether it requests its line.
pub(crate) fn requests(d: DevState) -> bool
    ensures { result ≡ table.dev_requests d }
{
    match d {
        DevState::Leds { .. } => false,
        DevState::Timer { flag, .. }
        | DevState::Serial { flag, .. }
        | DevState::Radio { flag, .. }
        | DevState::Sensor { flag, .. } => flag,
    }
}

/// What the acceptance of its line leaves.
pub(crate) fn accepted(d: DevState) -> DevState
    ensures { result ≡ table.dev_ack d }
{
    match d {
        DevState::Leds { .. } => d,
        DevState::Timer {
            on,
            period,
            left,
            ..
        } => DevState::Timer {
            on,
            period,
            left,
            flag: false,
        },
        DevState::Serial { rx, full, over, .. } => DevState::Serial {
            rx,
            full,
            over,
            flag: false,
        },
        DevState::Radio {
            on,
            addr,
            rx,
            full,
            lost,
            ..
        } => DevState::Radio {
            on,
            addr,
            rx,
            full,
            lost,
            flag: false,
        },
        DevState::Sensor { value, asked, .. } => DevState::Sensor {
            value,
            asked,
            flag: false,
        },
    }
}
