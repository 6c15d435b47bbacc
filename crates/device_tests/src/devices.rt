//! The device table, row by row: every register of every kind, by reads, writes, arrivals and acceptances.

use mote_devices::{Device, Leds, Radio, Sensor, Serial, Timer};

/// One call, and what it must answer.
#[derive(Drop)]
enum Call {
    Arrive(u16),
    Write(u8, u16),
    Ack,
    /// What registers 0 to 3 read, in this order, and the request after them.
    Shows([u16; 4], bool),
}

use Call::{Ack, Arrive, Shows, Write};

/// The first row whose answer is another one.
fn first_wrong<D: Device>(device: &mut D, calls: &[Call]) -> Option<usize> {
    for (row, call) in calls.iter().enumerate() {
        match call {
            Arrive(value) => device.arrive(*value),
            Write(reg, value) => device.write(*reg % 4, *value),
            Ack => device.ack(),
            Shows(registers, pending) => {
                let shown = [
                    device.read(0),
                    device.read(1),
                    device.read(2),
                    device.read(3),
                ];
                if shown != *registers || device.pending() != *pending {
                    return Some(row);
                }
            }
        }
    }
    None
}

#[test]
fn leds(rt: HostRuntime) {
    let calls = [
        Shows([0, 0, 0, 0], false),
        Write(0, 13),
        Write(1, 1),
        Write(2, 2),
        Write(3, 3),
        Arrive(7),
        Ack,
        Shows([5, 0, 0, 0], false),
    ];
    assert_eq!(rt; first_wrong(&mut Leds::new(), &calls), None);
}

#[test]
fn timer(rt: HostRuntime) {
    let calls = [
        Arrive(9),
        Shows([0, 0, 0, 0], false),
        Write(1, 0),
        Shows([0, 1, 0, 0], false),
        Write(1, 250),
        Write(0, 0xFFFF),
        Write(2, 7),
        Shows([1, 250, 250, 0], false),
        Arrive(100),
        Shows([1, 250, 150, 0], false),
        Write(1, 40),
        Arrive(150),
        Shows([1, 40, 40, 1], true),
        Ack,
        Shows([1, 40, 40, 0], false),
        Arrive(400),
        Shows([1, 40, 40, 1], true),
        Write(3, 1),
        Shows([1, 40, 40, 0], false),
        Arrive(15),
        Write(0, 2),
        Arrive(15),
        Shows([0, 40, 25, 0], false),
    ];
    assert_eq!(rt; first_wrong(&mut Timer::new(), &calls), None);
}

#[test]
fn timer_without_a_period(rt: HostRuntime) {
    let calls = [Write(0, 1), Arrive(0), Shows([1, 0, 0, 1], true)];
    assert_eq!(rt; first_wrong(&mut Timer::new(), &calls), None);
}

#[test]
fn serial(rt: HostRuntime) {
    let mut line = Serial::new();
    let calls = [
        Shows([0, 0, 0, 0], false),
        Arrive(0x0141),
        Write(0, 9),
        Write(1, 9),
        Write(2, 9),
        Write(3, 9),
    ];
    assert_eq!(rt; first_wrong(&mut line, &calls), None);
    assert_eq!(rt; line.read(1), 1, "a byte waits");
    line.arrive(0xFF42);
    assert_eq!(rt; line.read(1), 3, "and one was lost");
    let calls = [
        Shows([0x42, 0, 0, 0], true),
        Ack,
        Shows([0x42, 0, 0, 0], false),
    ];
    assert_eq!(rt; first_wrong(&mut line, &calls), None);
}

#[test]
fn radio(rt: HostRuntime) {
    let mut radio = Radio::new();
    let calls = [
        Write(3, 0x0105),
        Arrive(0x0507),
        Shows([0, 0, 0, 5], false),
        Write(1, 3),
        Write(0, 9),
        Write(2, 9),
        Arrive(0x0607),
        Shows([0, 1, 0, 5], false),
        Arrive(0x0507),
    ];
    assert_eq!(rt; first_wrong(&mut radio, &calls), None);
    assert_eq!(rt; radio.read(2), 1, "a value waits");
    radio.arrive(0xFF08);
    assert_eq!(rt; radio.read(2), 3, "and one was lost");
    let calls = [
        Shows([0xFF08, 1, 0, 5], true),
        Ack,
        Write(1, 2),
        Arrive(0x0509),
        Shows([0xFF08, 0, 0, 5], false),
    ];
    assert_eq!(rt; first_wrong(&mut radio, &calls), None);
}

#[test]
fn sensor(rt: HostRuntime) {
    let calls = [
        Arrive(77),
        Shows([77, 0, 0, 0], false),
        Write(0, 1),
        Write(2, 1),
        Write(3, 1),
        Write(1, 3),
        Shows([77, 1, 0, 0], false),
        Arrive(78),
        Shows([78, 0, 0, 0], true),
        Ack,
        Write(1, 1),
        Write(1, 2),
        Arrive(79),
        Shows([79, 0, 0, 0], false),
    ];
    assert_eq!(rt; first_wrong(&mut Sensor::new(), &calls), None);
}
