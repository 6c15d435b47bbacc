//! The pieces, the code at a line's vector, and the code at reset.

ghost use Rattle.std.specs.Prelude.{◌≡◌, ◌<◌, ◌∷◌, [], ◌++◌, IfOk, OnOk, map};
ghost use Rattle.code_pieces.specs.Pieces.{functions, handler_of, line_frame, piece_of, reset_of};
ghost use Rattle.msp_isa.specs.declared.code.Item.TheVariants as item;

use crate::put::{SP, put, put_begin, put_end, put_entry, put_exit, put_open, put_sleep};
use msp_isa::{CodeFn, Cond, Instr, Item, Op2, Operand};
use nm_base::{List, NoMemory, RAM_END};
use std::alloc::Global;

/// A piece of code that stands round a body or in it: the entry of a line and the exit of every line; begin and end of an atomic
/// statement, with the place in the frame where SR is kept; and sleep.
#[derive(Clone, Copy, Debug, PartialEq, Eq)]
pub enum PieceKind {
    Entry(u8),
    Exit,
    Begin(u16),
    End(u16),
    Sleep,
}

/// The bytes of a word.
const WORD: u16 = 2;

/// What an acceptance pushes: the address of the next instruction, and SR.
const ACCEPTANCE: u16 = 4;

/// How many registers entry pushes.
const SAVED: u16 = 12;

fn put_piece(items: &mut Vec<Item>, kind: PieceKind) -> Result<(), NoMemory>
    ensures { OnOk result (items.new.items ≡ items.old.items ++ (piece_of kind).items) }
{
    match kind {
        PieceKind::Entry(_) => put_entry(items),
        PieceKind::Exit => put_exit(items),
        PieceKind::Begin(place) => put_begin(items, place),
        PieceKind::End(place) => put_end(items, place),
        PieceKind::Sleep => put_sleep(items),
    }
}

fn frame_of(kind: PieceKind) -> u16
    ensures { result ≡ (piece_of kind).frame }
{
    match kind {
        PieceKind::Entry(_) => SAVED * WORD,
        PieceKind::Exit | PieceKind::Begin(_) | PieceKind::End(_) | PieceKind::Sleep => 0,
    }
}

/// The code of one piece.
pub fn piece(alloc: Global, kind: PieceKind) -> Result<CodeFn, NoMemory>
    ensures { IfOk result (λ code. code ≡ piece_of kind) }
{
    let mut items = Vec::new(alloc);
    put_piece(&mut items, kind)?;
    Ok(CodeFn {
        frame: frame_of(kind),
        items: List::new(items),
        calls: List::new(Vec::new(alloc)),
    })
}

fn put_call(items: &mut Vec<Item>, body: Option<u32>) -> Result<(), NoMemory>
    ensures { OnOk result (items.new.items ≡ items.old.items ++ map item.CallFn (functions body)) }
{
    if let Some(f) = body {
        items.push(Item::CallFn(f))?;
    }
    Ok(())
}

fn called(alloc: Global, body: Option<u32>) -> Result<List<u32>, NoMemory>
    ensures { IfOk result (λ fns. fns ≡ functions body) }
{
    let mut fns = Vec::new(alloc);
    if let Some(f) = body {
        fns.push(f)?;
    }
    Ok(List::new(fns))
}

// What the acceptance and entry push. A line without a handler counts as one that calls a function without a frame.
fn line_frame(body: Option<u32>) -> u16
    ensures { result ≡ line_frame body }
{
    match body {
        Some(_) => ACCEPTANCE + SAVED * WORD,
        None => ACCEPTANCE + SAVED * WORD + WORD,
    }
}

/// The code at a line's vector: entry, a call of the function at a place where the line has one, exit.
pub fn handler_code(alloc: Global, _line: u8, body: Option<u32>) -> Result<CodeFn, NoMemory>
    requires line { _line < 8 }
    ensures { IfOk result (λ code. code ≡ handler_of body) }
{
    let mut items = Vec::new(alloc);
    put_entry(&mut items)?;
    put_call(&mut items, body)?;
    put_exit(&mut items)?;
    Ok(CodeFn {
        frame: line_frame(body),
        items: List::new(items),
        calls: called(alloc, body)?,
    })
}

/// The code at reset: SP and GIE are set, the function at a place is called, and then the mote sleeps, again after each handler.
pub fn reset_code(alloc: Global, boot: u32) -> Result<CodeFn, NoMemory>
    ensures { IfOk result (λ code. code ≡ reset_of boot) }
{
    let mut items = Vec::new(alloc);
    put(
        &mut items,
        Instr::Two(
            Op2::Mov,
            false,
            Operand::Immediate(RAM_END),
            Operand::Reg(SP),
        ),
    )?;
    put_open(&mut items)?;
    put_call(&mut items, Some(boot))?;
    put_sleep(&mut items)?;
    put(&mut items, Instr::Jump(Cond::Jmp, -3))?;
    Ok(CodeFn {
        frame: 0,
        items: List::new(items),
        calls: called(alloc, Some(boot))?,
    })
}
