//! The code of functions.

ghost use Rattle.std.specs.Prelude.{◌≡◌, ◌∷◌, [], ◌++◌, ◌+◌, ◌<◌, All, IfOk, OnOk, length, map, take};
ghost use Rattle.mid_code.specs.Machine.{fn_of};
ghost use Rattle.select_emitter.specs.Code as spec;
ghost use Rattle.select_emitter.specs.Code.{CanBeSelected};
ghost use Rattle.select_emitter.specs.Scoped.{AreFrames, Fits, IsScope, all_items_in, items_in};

use crate::calls::{put_call, put_entry, put_help, put_return};
use crate::frames::{Frame, frames};
use crate::functions::function_at;
use crate::pieces::{
    put_begin, put_binary, put_branch, put_carry, put_copy, put_end, put_fault, put_in, put_jump,
    put_load, put_nop, put_out, put_peek, put_poke, put_set, put_store,
};
use crate::put::put;
use crate::scope::Scope;
use mid_code::{Mid, MidCode};
use msp_isa::{CodeFn, Item};
use nm_base::{List, NoMemory};
use std::alloc::Global;

/// The code of each function, in order, with all values on the stack. A function holds the bytes of its frame and two for each
/// value that is no parameter, and its callers push two for each parameter. Calls of functions have their places; behind these are
/// those of 48 operations, and then those of the checks. A Post becomes no code: it is to be made a call of a function before.
pub fn select(alloc: Global, c: &MidCode) -> Result<Vec<CodeFn>, NoMemory>
    requires { CanBeSelected c.now }
    ensures { IfOk result (λ code. code.items ≡ spec.all_code c.now) }
{
    let frames = frames(alloc, c)?;
    let mut code = Vec::with_capacity(alloc, c.fns.as_slice().len())?;
    for f in 0..c.fns.as_slice().len() {
        let scope = scope_of(c, frames.as_slice(), f);
        code.push(select_fn(alloc, &scope)?)?;
    }
    Ok(code)
}

// The scope of a function.
fn scope_of<'a>(c: &'a MidCode, frames: &'a [Frame], f: usize) -> Scope<'a>
    requires can { CanBeSelected c.now }
    requires frames { AreFrames c.now frames.now }
    requires function { f < length c.now.fns }
    ensures scope { IsScope result }
    ensures code { result.code.now ≡ c.now }
    ensures function { result.function.now ≡ fn_of c.now f }
    ensures fits { All (Fits result.code.now result.function.now.values) result.function.now.code }
{
    Scope {
        code: c,
        frames,
        function: function_at(c, f),
        frame: &frames[f],
    }
}

// The code of the function of the scope.
fn select_fn(alloc: Global, scope: &Scope<'_>) -> Result<CodeFn, NoMemory>
    requires scope { IsScope scope.now }
    requires fits { All (Fits scope.now.code.now scope.now.function.now.values) scope.now.function.now.code }
    ensures { IfOk result (λ f. f ≡ spec.code_of scope.now.code.now scope.now.function.now) }
{
    let mut items = Vec::new(alloc);
    put_entry(&mut items, scope.frame.own)?;
    put_all(scope, &mut items)?;
    let calls = called(alloc, items.as_slice())?;
    Ok(CodeFn {
        frame: scope.frame.own + 2 * scope.frame.words,
        items: List::new(items),
        calls: List::new(calls),
    })
}

fn put_all(scope: &Scope<'_>, items: &mut Vec<Item>) -> Result<(), NoMemory>
    requires scope { IsScope scope.now }
    requires fits { All (Fits scope.now.code.now scope.now.function.now.values) scope.now.function.now.code }
    ensures { OnOk result (items.new.items ≡ items.old.items ++ all_items_in scope.now scope.now.function.now.code) }
{
    for instr in scope.function.code.as_slice() {
        put_instr(scope, items, instr)?;
    }
    Ok(())
}

fn put_instr(scope: &Scope<'_>, items: &mut Vec<Item>, instr: &Mid) -> Result<(), NoMemory>
    requires scope { IsScope scope.now }
    requires fits { Fits scope.now.code.now scope.now.function.now.values instr.now }
    ensures { OnOk result (items.new.items ≡ items.old.items ++ items_in scope.now instr.now) }
{
    match instr {
        Mid::Set(v, n) => put_set(scope, items, *v, *n),
        Mid::Move(v, x) => put_copy(scope, items, *v, *x),
        Mid::Bin(op, v, x, y) => put_binary(scope, items, *op, *v, *x, *y),
        Mid::Carry(op, v, x, y) => put_carry(scope, items, *op, *v, *x, *y),
        Mid::Load(is_word, v, x) => put_load(scope, items, *is_word, *v, *x),
        Mid::Store(is_word, v, x) => put_store(scope, items, *is_word, *v, *x),
        Mid::Peek(is_word, v, x) => put_peek(scope, items, *is_word, *v, *x),
        Mid::Poke(is_word, v, x) => put_poke(scope, items, *is_word, *v, *x),
        Mid::In(v, port) => put_in(scope, items, *v, *port),
        Mid::Out(port, v) => put_out(scope, items, *port, *v),
        Mid::Label(l) => put(items, Item::Label(*l)),
        Mid::Jump(l) => put_jump(items, *l),
        Mid::Branch(test, x, y, l) => put_branch(scope, items, *test, *x, *y, *l),
        Mid::Call(g, ins, outs) => put_call(scope, items, *g, ins.as_slice(), outs.as_slice()),
        Mid::Help(h, ins, outs) => put_help(scope, items, *h, ins.as_slice(), outs.as_slice()),
        Mid::Ret(vs) => put_return(scope, items, vs.as_slice()),
        Mid::Begin(o) => put_begin(scope, items, *o),
        Mid::End(o) => put_end(scope, items, *o),
        Mid::Post(_, _) => Ok(()),
        Mid::Tick => put_nop(items),
        Mid::Fault(code) => put_fault(scope, items, *code),
    }
}

// The functions that items call.
fn called(alloc: Global, items: &[Item]) -> Result<Vec<u32>, NoMemory>
    ensures { IfOk result (λ calls. calls.items ≡ spec.called items.now) }
{
    let mut calls = Vec::new(alloc);
    for item in items {
        if let Item::CallFn(f) = item {
            calls.push(*f)?;
        }
    }
    Ok(calls)
}
