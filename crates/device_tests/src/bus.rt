//! A board with devices of several kinds, and a processor on its bus.

ghost use Rattle.mote_devices.specs.declared.state.DevState.TheVariants as dev;

use mote_bus::{Access, Board, MoteBus};
use mote_devices::{Device, Leds, Timer};
use msp_isa::{Image, load_image};
use msp430_cpu::{Bus, Cpu, Stepped};
use std::alloc::Global;
use std::test::Fail;

// Lamps that keep their state in a byte.
#[derive(Drop)]
struct SmallLeds {
    lit: u8,
}

impl Device for SmallLeds {
    ghost state = { λ d. dev.Leds d.lit };

    fn arrive(&mut self, _value: u16) {}

    fn read(&mut self, reg: u8) -> u16 {
        match reg {
            0 => u16::from(self.lit),
            1 => 0,
            2 => 0,
            _ => 0,
        }
    }

    fn write(&mut self, reg: u8, value: u16) {
        match reg {
            0 => self.lit = (value % 8) as u8,
            1 => {}
            2 => {}
            _ => {}
        }
    }

    fn ack(&mut self) {}

    fn pending(&self) -> bool {
        false
    }
}

#[test]
fn timer_counts_and_requests(rt: HostRuntime) -> Result<(), Fail> {
    let mut timer = Timer::new();
    timer.write(1, 250);
    timer.write(0, 1);
    timer.arrive(100);
    assert_eq!(rt; timer.read(2), 150);
    assert!(rt; !timer.pending());
    timer.arrive(400);
    assert_eq!(rt; timer.read(2), 250);
    assert!(rt; timer.pending());
    timer.ack();
    assert!(rt; !timer.pending());
    Ok(())
}

#[test]
fn timer_behind_the_ports(rt: HostRuntime) -> Result<(), Fail> {
    let mut devices: Vec<Box<dyn Device>> = Vec::new(rt.alloc());
    devices.push(Box::new(rt.alloc(), Timer::new())?)?;
    let mut board = Board::new(devices);
    board.write(0x0122, 250);
    board.write(0x0120, 1);
    board.arrive(0, 100);
    assert_eq!(rt; board.read(0x0124), 150);
    assert_eq!(rt; board.read(0x0102), 0);
    board.arrive(0, 400);
    assert_eq!(rt; board.read(0x0124), 250);
    assert_eq!(rt;
        board.read(0x0102),
        1,
        "the request is told though it is masked"
    );
    assert_eq!(rt; board.line(), None);
    board.write(0x0100, 1);
    assert_eq!(rt; board.line(), Some(0));
    board.accept(0);
    assert_eq!(rt; board.line(), None);
    assert_eq!(rt; board.read(0x0126), 0);
    Ok(())
}

#[test]
fn greatest_line_is_taken(rt: HostRuntime) -> Result<(), Fail> {
    let mut devices: Vec<Box<dyn Device>> = Vec::new(rt.alloc());
    devices.push(Box::new(rt.alloc(), Timer::new())?)?;
    devices.push(Box::new(rt.alloc(), SmallLeds { lit: 0 })?)?;
    devices.push(Box::new(rt.alloc(), Timer::new())?)?;
    let mut board = Board::new(devices);
    board.write(0x0100, 0x01FF);
    assert_eq!(rt; board.read(0x0100), 0xFF, "the mask is a byte");
    board.write(0x0120, 1);
    board.write(0x0130, 1);
    board.arrive(0, 1);
    board.arrive(1, 1);
    board.arrive(2, 1);
    board.arrive(7, 1);
    board.arrive(200, 1);
    assert_eq!(rt; board.read(0x0102), 5);
    assert_eq!(rt; board.line(), Some(2));
    board.write(0x0100, 1);
    assert_eq!(rt; board.line(), Some(0));
    board.write(0x0104, 0x1234);
    board.write(0x0104, 0x0005);
    assert_eq!(rt; board.stopped(), Some(0x34), "the first code stays");
    Ok(())
}

#[test]
fn takes_a_device_of_the_callers(rt: HostRuntime) -> Result<(), Fail> {
    let mut devices: Vec<Box<dyn Device>> = Vec::new(rt.alloc());
    devices.push(Box::new(rt.alloc(), Leds::new())?)?;
    devices.push(Box::new(rt.alloc(), SmallLeds { lit: 3 })?)?;
    let mut board = Board::new(devices);
    assert_eq!(rt; board.read(0x0128), 3);
    board.write(0x0128, 13);
    assert_eq!(rt; board.read(0x0128), 5);
    assert_eq!(rt; board.read(0x0120), 0, "another slot");
    assert_eq!(rt; board.read(0x0130), 0, "an empty slot");
    Ok(())
}

// A bus with this code, and lamps in the first slot.
fn bus_of(alloc: Global, code: &[u16]) -> Result<MoteBus, Fail> {
    let mut vectors = [0; 16];
    vectors[15] = 0x4000;
    let image = Image {
        code: code.to_vec(alloc)?,
        vectors,
        ram: 2,
        stack: 0,
    };
    let mut devices: Vec<Box<dyn Device>> = Vec::new(alloc);
    devices.push(Box::new(alloc, Leds::new())?)?;
    let loaded = load_image(alloc, &image)?;
    Ok(MoteBus::new(alloc, &loaded, Board::new(devices))?)
}

#[test]
fn keeps_the_first_four_accesses(rt: HostRuntime) -> Result<(), Fail> {
    // MOV #13, &0x0120; MOV &0x0120, R5; MOV.B R5, &0x1101
    let code = [0x40B2, 13, 0x0120, 0x4215, 0x0120, 0x45C2, 0x1101];
    let mut bus = bus_of(rt.alloc(), &code)?;
    let mut cpu = Cpu::new(bus.fetch(0xFFFE));
    for _ in 0..3 {
        assert_eq!(rt; cpu.step(&mut bus), Stepped::Ran);
    }
    let three = [
        Access::Write(0x0120, true, 13),
        Access::Read(0x0120, true, 5),
        Access::Write(0x1101, false, 5),
    ];
    assert_eq!(rt; bus.accesses(), three.as_slice());
    let word = bus.read(0x1101, true);
    assert_eq!(rt; word, 0x0500, "bit 0 of a word's address is ignored");
    assert_eq!(rt; bus.read(0x0120, true), 5);
    assert_eq!(rt;
        bus.accesses().get(3).copied(),
        Some(Access::Read(0x1101, true, 0x0500))
    );
    assert_eq!(rt; bus.accesses().len(), 4);
    Ok(())
}

#[test]
fn takes_no_byte_at_a_port_and_no_code(rt: HostRuntime) -> Result<(), Fail> {
    let mut bus = bus_of(rt.alloc(), &[0x40B2])?;
    bus.board_mut().write(0x0120, 5);
    assert_eq!(rt; bus.read(0x0120, false), 0);
    bus.forget();
    bus.write(0x0120, false, 2);
    bus.write(0x4000, true, 2);
    assert_eq!(rt; bus.board_mut().read(0x0120), 5);
    assert_eq!(rt; bus.fetch(0x4000), 0x40B2);
    let two = [
        Access::Write(0x0120, false, 2),
        Access::Write(0x4000, true, 2),
    ];
    assert_eq!(rt; bus.accesses(), two.as_slice());
    Ok(())
}
