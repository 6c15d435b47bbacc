//! Calls on a slot, which do nothing where it is empty.

ghost use Rattle.std.specs.Prelude.{◌≡◌, ◌<◌, ◌≤◌, ◌-◌, ◌++◌, map, replicate, length, vec_len, Some, None};
ghost use Rattle.std.specs.Option.{option_map};
ghost use Rattle.mote_devices.specs.Device.{dev_arrive, dev_read, dev_write, dev_ack};
ghost use Rattle.mote_devices.specs.Board.{answer_of, changed, does_request};

use mote_devices::Device;

/// The items in the first slots.
#[tactic(auto, using(crate::proofs::SlotLemmas::fills))]
pub fn filled<T: Drop>(items: Vec<T>) -> [Option<T>; 8]
    requires { vec_len items ≤ 8 }
    ensures { result ≡ map Some items.items ++ replicate (8 - length items.items) None }
{
    let mut slots = [None, None, None, None, None, None, None, None];
    let mut at = 0;
    for item in items {
        slots[at] = Some(item);
        at += 1;
    }
    slots
}

pub fn arrive<D: Device>(slot: &mut Option<D>, value: u16)
    ensures { option_map D.state slot.new ≡ changed (λ d. dev_arrive d value) (option_map D.state slot.old) }
{
    if let Some(device) = slot {
        device.arrive(value);
    }
}

pub fn read<D: Device>(slot: &mut Option<D>, reg: u8) -> u16
    requires { reg < 4 }
    ensures value { result ≡ answer_of (option_map D.state slot.old) reg }
    ensures after { option_map D.state slot.new ≡ changed (λ d. dev_read d reg) (option_map D.state slot.old) }
{
    match slot {
        Some(device) => device.read(reg),
        None => 0,
    }
}

pub fn write<D: Device>(slot: &mut Option<D>, reg: u8, value: u16)
    requires { reg < 4 }
    ensures { option_map D.state slot.new ≡ changed (λ d. dev_write d reg value) (option_map D.state slot.old) }
{
    if let Some(device) = slot {
        device.write(reg, value);
    }
}

pub fn ack<D: Device>(slot: &mut Option<D>)
    ensures { option_map D.state slot.new ≡ changed dev_ack (option_map D.state slot.old) }
{
    if let Some(device) = slot {
        device.ack();
    }
}

pub fn requests<D: Device>(slot: &Option<D>) -> bool
    ensures { result ≡ does_request (option_map D.state slot.now) }
{
    match slot {
        Some(device) => device.pending(),
        None => false,
    }
}
