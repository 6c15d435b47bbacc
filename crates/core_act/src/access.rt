//! Accesses of objects, which are actions, and of locals, which are none.

ghost use Rattle.std.specs.Prelude.{◌≡◌, ◌≤◌, ◌+◌, ◌%◌, ◌/◌, true, false, IfOk, OnOk, [], slice_index, slice_index_or, slice_set, option_copied};
ghost use Rattle.core_act.specs.Told.{Comes, LiesWithin};
ghost use Rattle.core_meaning.specs.Numbers.{residue};
ghost use Rattle.core_meaning.specs.Work as work;
ghost use Rattle.nm_base.specs.IntType.{width};
ghost use Rattle.nesc_core.specs.Plain as plain;
ghost use Rattle.nesc_core.specs.PlaceTypes.{type_in};

use crate::log::{Log, ask, perform};
use core_meaning::Where;
use core_numbers::bits_of;
use nesc_core::CoreType;
use nm_base::{Action, IntType, NoMemory, wrap};
use std::marker::Model;

/// A local, which contracts see as its bytes.
#[derive(Drop)]
pub(crate) struct Local {
    bytes: Vec<u8>,
}

impl Model for Local {
    ghost use Rattle.std.specs.Prelude.{List, ℕ};

    ghost Value = { List ℕ };

    ghost view = { λ local. local.bytes.items };
}

impl Local {
    pub(crate) fn new(bytes: Vec<u8>) -> Local
        ensures { result ≡ bytes.items }
    {
        Local { bytes }
    }

    fn byte(&self, offset: u32) -> u8
        ensures { result ≡ slice_index self.now offset }
    {
        self.bytes.get(offset as usize).copied().unwrap_or(0)
    }

    fn set_byte(&mut self, offset: u32, byte: u8)
        ensures { self.new ≡ slice_set self.old offset byte }
    {
        if (offset as usize) < self.bytes.len() {
            self.bytes[offset as usize] = byte;
        }
    }

    fn set_word(&mut self, offset: u32, word: u16)
        requires { offset ≤ 65535 }
        ensures { self.new ≡ slice_set (slice_set self.old offset (word % 256)) (offset + 1) (word / 256) }
    {
        self.set_byte(offset, (word % 256) as u8);
        self.set_byte(offset + 1, (word / 256) as u8);
    }
}

pub(crate) fn moved(w: Where, distance: u32) -> Where
    requires within { LiesWithin distance w }
    requires short { distance ≤ 32767 }
    ensures { result ≡ work.moved w distance }
{
    match w {
        Where::At(address) => Where::At(((u32::from(address) + distance) % 65_536) as u16),
        Where::Within(x, offset) => Where::Within(x, offset + distance),
    }
}

pub(crate) fn address_of(w: Where) -> u16
    ensures { result ≡ work.address_of w }
{
    match w {
        Where::At(address) => address,
        Where::Within(_, _) => 0,
    }
}

fn byte_in(locals: &[Local], x: u32, offset: u32) -> u8
    ensures { result ≡ slice_index (slice_index_or locals.now x []) offset }
{
    match locals.get(x as usize) {
        Some(local) => local.byte(offset),
        None => 0,
    }
}

fn get(w: Where, is_word: bool, locals: &[Local], log: &mut Log) -> Result<u16, NoMemory>
    requires { LiesWithin 0 w }
    ensures { IfOk result (λ n. Comes (work.get w is_word) log.old locals.now n log.new locals.now) }
{
    match w {
        Where::At(address) => ask(log, Action::Load(address, is_word)),
        Where::Within(x, offset) => {
            let low = u16::from(byte_in(locals, x, offset));
            if is_word {
                Ok(low + 256 * u16::from(byte_in(locals, x, offset + 1)))
            } else {
                Ok(low)
            }
        }
    }
}

// 8 bits of the number.
fn set_byte(w: Where, n: u8, locals: &mut [Local], log: &mut Log) -> Result<(), NoMemory>
    requires { LiesWithin 0 w }
    ensures { OnOk result (Comes (work.set w false n) log.old locals.old tt log.new locals.new) }
{
    match w {
        Where::At(address) => perform(log, Action::Store(address, false, u16::from(n))),
        Where::Within(x, offset) => {
            if (x as usize) < locals.len() {
                locals[x as usize].set_byte(offset, n);
            }
            Ok(())
        }
    }
}

fn set_word(w: Where, n: u16, locals: &mut [Local], log: &mut Log) -> Result<(), NoMemory>
    requires { LiesWithin 0 w }
    ensures { OnOk result (Comes (work.set w true n) log.old locals.old tt log.new locals.new) }
{
    match w {
        Where::At(address) => perform(log, Action::Store(address, true, n)),
        Where::Within(x, offset) => {
            if (x as usize) < locals.len() {
                locals[x as usize].set_word(offset, n);
            }
            Ok(())
        }
    }
}

// 32 bits, the low half first.
fn get_long(w: Where, locals: &[Local], log: &mut Log) -> Result<u32, NoMemory>
    requires { LiesWithin 2 w }
    ensures { IfOk result (λ n. Comes (work.get_long w) log.old locals.now n log.new locals.now) }
{
    let low = get(w, true, locals, log)?;
    let high = get(moved(w, 2), true, locals, log)?;
    Ok(u32::from(low) + 65_536 * u32::from(high))
}

fn set_long(w: Where, n: u32, locals: &mut [Local], log: &mut Log) -> Result<(), NoMemory>
    requires { LiesWithin 2 w }
    ensures { OnOk result (Comes (work.set_long w n) log.old locals.old tt log.new locals.new) }
{
    set_word(w, (n % 65_536) as u16, locals, log)?;
    set_word(moved(w, 2), (n / 65_536) as u16, locals, log)
}

fn get_int(t: IntType, w: Where, locals: &[Local], log: &mut Log) -> Result<u32, NoMemory>
    requires { LiesWithin 2 w }
    ensures { IfOk result (λ n. Comes (work.get_int t w) log.old locals.now n log.new locals.now) }
{
    match t {
        IntType::I8 | IntType::U8 => Ok(u32::from(get(w, false, locals, log)?)),
        IntType::I16 | IntType::U16 => Ok(u32::from(get(w, true, locals, log)?)),
        IntType::I32 | IntType::U32 => get_long(w, locals, log),
    }
}

fn set_int(
    t: IntType,
    w: Where,
    v: i64,
    locals: &mut [Local],
    log: &mut Log,
) -> Result<(), NoMemory>
    requires { LiesWithin 2 w }
    ensures { OnOk result (Comes (work.set_int t w (residue (width t) v)) log.old locals.old tt log.new locals.new) }
{
    let n = bits_of(t, v);
    match t {
        IntType::I8 | IntType::U8 => set_byte(w, n as u8, locals, log),
        IntType::I16 | IntType::U16 => set_word(w, n as u16, locals, log),
        IntType::I32 | IntType::U32 => set_long(w, n, locals, log),
    }
}

/// As which integer a value of the type is held: a pointer is an address.
pub(crate) fn number_of(t: Option<&CoreType>) -> IntType
    ensures { result ≡ work.number_of (type_in (option_copied t.entry)) }
{
    match t {
        Some(CoreType::Int(int)) => *int,
        Some(CoreType::Void) | Some(CoreType::Pointer(_)) => IntType::U16,
        Some(CoreType::Array(_, _)) | Some(CoreType::Struct(_)) | None => IntType::U16,
    }
}

/// The value of a place of this type.
pub(crate) fn load(
    t: Option<&CoreType>,
    w: Where,
    locals: &[Local],
    log: &mut Log,
) -> Result<i64, NoMemory>
    requires { LiesWithin 2 w }
    ensures { IfOk result (λ v. Comes (work.load (type_in (option_copied t.entry)) w) log.old locals.now v log.new locals.now) }
{
    match t {
        Some(CoreType::Int(int)) => number(*int, w, locals, log),
        Some(CoreType::Void) | Some(CoreType::Pointer(_)) => word(w, locals, log),
        Some(CoreType::Array(_, _)) | Some(CoreType::Struct(_)) | None => word(w, locals, log),
    }
}

fn number(t: IntType, w: Where, locals: &[Local], log: &mut Log) -> Result<i64, NoMemory>
    requires { LiesWithin 2 w }
    ensures { IfOk result (λ v. Comes (work.load (plain.int t) w) log.old locals.now v log.new locals.now) }
{
    let n = get_int(t, w, locals, log)?;
    Ok(wrap(t, i64::from(n)))
}

fn word(w: Where, locals: &[Local], log: &mut Log) -> Result<i64, NoMemory>
    requires { LiesWithin 0 w }
    ensures { IfOk result (λ v. Comes (work.load (plain.pointer plain.void) w) log.old locals.now v log.new locals.now) }
{
    Ok(i64::from(get(w, true, locals, log)?))
}

/// Stores a value in a place of this type.
pub(crate) fn store(
    t: Option<&CoreType>,
    w: Where,
    v: i64,
    locals: &mut [Local],
    log: &mut Log,
) -> Result<(), NoMemory>
    requires { LiesWithin 2 w }
    ensures { OnOk result (Comes (work.store (type_in (option_copied t.entry)) w v) log.old locals.old tt log.new locals.new) }
{
    set_int(number_of(t), w, v, locals, log)
}
