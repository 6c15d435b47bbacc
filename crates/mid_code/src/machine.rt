//! The open machine, one instruction at a time.

ghost use Rattle.std.specs.Prelude.{◌≡◌, ◌+◌, ◌-◌, ◌<◌, ◌^◌, ◌∷◌, [], List as ListOf, IfOk, OnErr, OnOk, All, map, length, pos, replicate, slice_get, slice_index, slice_index_or, take, Some, false};
ghost use Rattle.nm_base.specs.IntType.{wrapped};
ghost use Rattle.nm_base.specs.declared.int_type.IntType.TheVariants.{I16};
ghost use Rattle.mid_code.specs.declared.code.MidCode.{MidCode};
ghost use Rattle.mid_code.specs.Form.{AreBelow, IsMidCode, NamesOwn, goes_elsewhere};
ghost use Rattle.mid_code.specs.Machine.{Activation, entry, fn_of, moved, perform, place_of, put_all, shown, started, step};
ghost use Rattle.mid_code.specs.Machine as machine;
ghost use Rattle.mid_code.specs.State.{MayTake, no_call, IsCallOf, IsStateOf, StaysInCall, activation_of, activations, calls_over};
ghost use Rattle.mid_code.specs.Words as words;

use crate::code::{MidCode, MidFn};
use crate::help::helped;
use crate::instr::{Mid, Op, Test};
use crate::state::{MidCall, MidState};
use nm_base::{Action, IntType, List, NoMemory, wrap};
use std::alloc::Global;
use std::mem;

fn operate(op: Op, x: u16, y: u16) -> u16
    ensures { result ≡ words.operate op x y }
{
    match op {
        Op::Add => x.wrapping_add(y),
        Op::Sub => x.wrapping_sub(y),
        Op::And => x & y,
        Op::Or => x | y,
        Op::Xor => x ^ y,
    }
}

fn carry(op: Op, x: u16, y: u16) -> u16
    ensures { result ≡ words.carry op x y }
{
    match op {
        Op::Add => u16::from(u32::from(x) + u32::from(y) > 0xFFFF),
        Op::Sub => u16::from(x < y),
        Op::And | Op::Or | Op::Xor => 0,
    }
}

fn signed(x: u16) -> i64
    ensures { result ≡ wrapped I16 (pos x) }
{
    wrap(IntType::I16, i64::from(x))
}

fn holds(test: Test, x: u16, y: u16) -> bool
    ensures { result ≡ words.holds test x y }
{
    match test {
        Test::Eq => x == y,
        Test::Ne => x != y,
        Test::Lt => signed(x) < signed(y),
        Test::Le => signed(x) <= signed(y),
        Test::LtU => x < y,
        Test::LeU => x <= y,
    }
}

fn kept(is_word: bool, x: u16) -> u16
    ensures { result ≡ words.kept is_word x }
{
    if is_word { x } else { x % 256 }
}

// What stands at a place of a frame; 0 outside.
fn byte_at(frame: &[u8], offset: usize) -> u16
    ensures { result ≡ slice_index frame.now offset }
{
    match frame.get(offset) {
        Some(byte) => u16::from(*byte),
        None => 0,
    }
}

fn peek(is_word: bool, frame: &[u8], offset: u16) -> u16
    ensures { result ≡ machine.peeked is_word (slice_index frame.now) offset }
{
    let offset = usize::from(offset);
    if is_word {
        byte_at(frame, offset) + 256 * byte_at(frame, offset + 1)
    } else {
        byte_at(frame, offset)
    }
}

#[tactic(auto, using(crate::proofs::Written::set_byte, crate::proofs::Written::set_outside))]
fn poke_byte(frame: &mut Vec<u8>, offset: usize, x: u8)
    ensures frame { slice_index frame.new.items ≡ machine.poke_byte (length frame.old.items) (slice_index frame.old.items) offset x }
    ensures length { length frame.new.items ≡ length frame.old.items }
{
    if offset < frame.len() {
        frame[offset] = x;
    }
}

fn poke(is_word: bool, frame: &mut Vec<u8>, offset: u16, x: u16)
    ensures frame { slice_index frame.new.items ≡ machine.poked is_word (length frame.old.items) (slice_index frame.old.items) offset x }
    ensures length { length frame.new.items ≡ length frame.old.items }
{
    let offset = usize::from(offset);
    poke_byte(frame, offset, (x % 256) as u8);
    if is_word {
        poke_byte(frame, offset + 1, (x / 256) as u8);
    }
}

#[tactic(auto, using(crate::proofs::Written::written))]
fn put(values: &mut Vec<u16>, v: u32, x: u16)
    requires { v < length values.old.items }
    ensures values { slice_index values.new.items ≡ machine.put (slice_index values.old.items) v x }
    ensures length { length values.new.items ≡ length values.old.items }
{
    values[v as usize] = x;
}

fn put_all(values: &mut Vec<u16>, vs: &[u32], xs: &[u16])
    requires { AreBelow (length values.old.items) vs.now }
    ensures values { slice_index values.new.items ≡ machine.put_all (slice_index values.old.items) vs.now xs.now }
    ensures length { length values.new.items ≡ length values.old.items }
{
    let mut vs = vs;
    let mut xs = xs;
    while let [v, further @ ..] = vs {
        let [x, others @ ..] = xs else {
            return;
        };
        put(values, *v, *x);
        vs = further;
        xs = others;
    }
}

// The place of a label, or the end of the code.
fn place_of(code: &[Mid], l: u32) -> u32
    requires { length code.now < 2 ^ 32 }
    ensures place { result ≡ machine.place_of code.now l }
{
    let mut at = 0;
    for instr in code {
        if is_label(instr, l) {
            return at;
        }
        at += 1;
    }
    at
}

fn is_label(instr: &Mid, l: u32) -> bool
    ensures { result ≡ machine.is_label instr.now l }
{
    match instr {
        Mid::Label(k) => *k == l,
        _ => false,
    }
}

// Writes values of a call, which goes on behind its instruction.
fn write_all(alloc: Global, call: &mut MidCall, vs: &[u32], xs: &[u16])
    requires below { AreBelow (length call.old.values) vs.now }
    requires room { call.old.at < 2 ^ 32 - 1 }
    ensures call { activation_of call.new ≡ machine.write_all (activation_of call.old) vs.now xs.now }
    ensures values { length call.new.values ≡ length call.old.values }
    ensures frame { call.new.frame ≡ call.old.frame }
    ensures f { call.new.f ≡ call.old.f }
    ensures at { call.new.at ≡ call.old.at + 1 }
{
    let mut values = mem::replace(&mut call.values, List::new(Vec::new(alloc))).into_vec();
    put_all(&mut values, vs, xs);
    call.values = List::new(values);
    call.at += 1;
}

fn write(alloc: Global, call: &mut MidCall, v: u32, x: u16)
    requires below { v < length call.old.values }
    requires room { call.old.at < 2 ^ 32 - 1 }
    ensures call { activation_of call.new ≡ machine.write (activation_of call.old) v x }
    ensures values { length call.new.values ≡ length call.old.values }
    ensures frame { call.new.frame ≡ call.old.frame }
    ensures f { call.new.f ≡ call.old.f }
    ensures at { call.new.at ≡ call.old.at + 1 }
{
    let mut values = mem::replace(&mut call.values, List::new(Vec::new(alloc))).into_vec();
    put(&mut values, v, x);
    call.values = List::new(values);
    call.at += 1;
}

fn poke_frame(alloc: Global, call: &mut MidCall, is_word: bool, offset: u16, x: u16)
    ensures frame { slice_index call.new.frame ≡ machine.poked is_word (length call.old.frame) (slice_index call.old.frame) offset x }
    ensures length { length call.new.frame ≡ length call.old.frame }
    ensures values { call.new.values ≡ call.old.values }
    ensures f { call.new.f ≡ call.old.f }
    ensures at { call.new.at ≡ call.old.at }
{
    let mut frame = mem::replace(&mut call.frame, List::new(Vec::new(alloc))).into_vec();
    poke(is_word, &mut frame, offset, x);
    call.frame = List::new(frame);
}

fn value(call: &MidCall, v: u32) -> u16
    ensures { result ≡ slice_index call.now.values v }
{
    match call.values.as_slice().get(v as usize) {
        Some(x) => *x,
        None => 0,
    }
}

fn values(alloc: Global, call: &MidCall, vs: &[u32]) -> Result<Vec<u16>, NoMemory>
    ensures { IfOk result (λ xs. xs.items ≡ map (slice_index call.now.values) vs.now) }
{
    let mut xs = Vec::new(alloc);
    for v in vs {
        xs.push(value(call, *v))?;
    }
    Ok(xs)
}

// An instruction that stays in its call.
#[tactic(auto, using(crate::proofs::Labels::stands_inside))]
fn plain(
    alloc: Global,
    code: &MidFn,
    call: &mut MidCall,
    instr: &Mid,
    answer: u16,
) -> Option<Action>
    requires plain { StaysInCall instr.now }
    requires names { NamesOwn code.now instr.now }
    requires values { length call.old.values ≡ code.now.values }
    requires frame { length call.old.frame ≡ code.now.frame }
    requires short { length code.now.code < 2 ^ 32 }
    requires room { call.old.at < 2 ^ 32 - 1 }
    requires onward { goes_elsewhere instr.now ≡ false → call.old.at + 1 < length code.now.code }
    ensures action { (c : MidCode) (rest : ListOf Activation) → result ≡ shown (perform (Some instr.now) c code.now (activation_of call.old) rest) }
    ensures call { (c : MidCode) (rest : ListOf Activation) → activation_of call.new ∷ rest ≡ moved (perform (Some instr.now) c code.now (activation_of call.old) rest) answer }
    ensures values { length call.new.values ≡ length call.old.values }
    ensures frame { length call.new.frame ≡ length call.old.frame }
    ensures f { call.new.f ≡ call.old.f }
    ensures place { call.new.at < length code.now.code }
{
    match instr {
        Mid::Set(v, x) => {
            write(alloc, call, *v, *x);
            None
        }
        Mid::Move(v, x) => {
            let x = value(call, *x);
            write(alloc, call, *v, x);
            None
        }
        Mid::Bin(op, v, x, y) => {
            let x = operate(*op, value(call, *x), value(call, *y));
            write(alloc, call, *v, x);
            None
        }
        Mid::Carry(op, v, x, y) => {
            let x = carry(*op, value(call, *x), value(call, *y));
            write(alloc, call, *v, x);
            None
        }
        Mid::Load(is_word, v, x) => {
            let address = value(call, *x);
            write(alloc, call, *v, kept(*is_word, answer));
            Some(Action::Load(address, *is_word))
        }
        Mid::Store(is_word, v, x) => {
            call.at += 1;
            Some(Action::Store(value(call, *x), *is_word, kept(*is_word, value(call, *v))))
        }
        Mid::Peek(is_word, v, x) => {
            let x = peek(*is_word, call.frame.as_slice(), value(call, *x));
            write(alloc, call, *v, x);
            None
        }
        Mid::Poke(is_word, v, x) => {
            let offset = value(call, *x);
            let x = value(call, *v);
            poke_frame(alloc, call, *is_word, offset, x);
            call.at += 1;
            None
        }
        Mid::In(v, port) => {
            write(alloc, call, *v, answer);
            Some(Action::In(*port))
        }
        Mid::Out(port, v) => {
            call.at += 1;
            Some(Action::Out(*port, value(call, *v)))
        }
        Mid::Label(_) => {
            call.at += 1;
            None
        }
        Mid::Jump(l) => {
            call.at = place_of(code.code.as_slice(), *l);
            None
        }
        Mid::Branch(test, x, y, l) => {
            call.at = if holds(*test, value(call, *x), value(call, *y)) {
                place_of(code.code.as_slice(), *l)
            } else {
                call.at + 1
            };
            None
        }
        Mid::Begin(_) => {
            call.at += 1;
            Some(Action::Begin)
        }
        Mid::End(_) => {
            call.at += 1;
            Some(Action::End)
        }
        Mid::Post(k, v) => {
            write(alloc, call, *v, answer);
            Some(Action::Post(*k))
        }
        Mid::Tick => {
            call.at += 1;
            Some(Action::Tick)
        }
        Mid::Call(_, _, _) | Mid::Help(_, _, _) | Mid::Ret(_) | Mid::Fault(_) => unreachable!(),
    }
}

fn zero_values(alloc: Global, count: u32) -> Result<Vec<u16>, NoMemory>
    ensures { IfOk result (λ v. v.items ≡ replicate count 0) }
{
    Ok(vec![in alloc; 0; count as usize]?)
}

fn zero_frame(alloc: Global, size: u16) -> Result<Vec<u8>, NoMemory>
    ensures { IfOk result (λ v. v.items ≡ replicate size 0) }
{
    Ok(vec![in alloc; 0; usize::from(size)]?)
}

fn function_of(c: &MidCode, f: u32) -> &MidFn
    requires { f < length c.now.fns }
    ensures { result.now ≡ fn_of c.now f }
{
    &c.fns.as_slice()[f as usize]
}

// A call of a function at its first instruction.
#[tactic(auto, using(crate::proofs::Calls::own_params, crate::proofs::Calls::some_code, crate::proofs::Calls::zeros))]
fn entered(alloc: Global, c: &MidCode, g: u32, passed: &[u16]) -> Result<MidCall, NoMemory>
    requires form { IsMidCode c.now }
    requires function { g < length c.now.fns }
    ensures call { IfOk result (λ m. activation_of m ≡ entry c.now g passed.now) }
    ensures state { IfOk result (λ m. IsCallOf c.now m) }
{
    let callee = function_of(c, g);
    let mut values = zero_values(alloc, callee.values)?;
    put_all(&mut values, callee.params.as_slice(), passed);
    let frame = zero_frame(alloc, callee.frame)?;
    Ok(MidCall {
        f: g,
        at: 0,
        values: List::new(values),
        frame: List::new(frame),
    })
}

/// The state with one call, of a function without parameters, at its first instruction; all values and bytes of the frame are 0.
pub fn open_start(alloc: Global, c: &MidCode, f: u32) -> Result<MidState, NoMemory>
    requires form { IsMidCode c.now }
    requires function { f < length c.now.fns }
    requires params { (fn_of c.now f).params ≡ [] }
    ensures start { IfOk result (λ s. activations s ≡ started c.now f) }
    ensures state { IfOk result (λ s. IsStateOf c.now s) }
{
    let root = entered(alloc, c, f, &[])?;
    let calls = Vec::from_array(alloc, [root])?;
    Ok(MidState {
        calls: List::new(calls),
    })
}

// Where a call stands.
#[tactic(auto, using(crate::proofs::Steps::top_is))]
fn instruction_at<'a>(c: &'a MidCode, calls: &[MidCall], top: usize) -> &'a Mid
    requires state { All (IsCallOf c.now) calls.now }
    requires top { top + 1 ≡ length calls.now }
    ensures { slice_get (fn_of c.now (slice_index_or calls.now top no_call).f).code (slice_index_or calls.now top no_call).at ≡ Some result.now }
{
    let call = &calls[top];
    &function_of(c, call.f).code.as_slice()[call.at as usize]
}

// The instruction of the innermost call.
#[tactic(auto, using(crate::proofs::Steps::stepped, crate::proofs::Steps::names, crate::proofs::Steps::top_is))]
fn next_instruction<'a>(c: &'a MidCode, calls: &[MidCall], top: usize) -> &'a Mid
    requires form { IsMidCode c.now }
    requires state { All (IsCallOf c.now) calls.now }
    requires top { top + 1 ≡ length calls.now }
    ensures stands { slice_get (fn_of c.now (slice_index_or calls.now top no_call).f).code (slice_index_or calls.now top no_call).at ≡ Some result.now }
    ensures step { step c.now (calls_over calls.now []) ≡ perform (Some result.now) c.now (fn_of c.now (slice_index_or calls.now top no_call).f) (activation_of (slice_index_or calls.now top no_call)) (calls_over (take top calls.now) []) }
    ensures names { NamesOwn (fn_of c.now (slice_index_or calls.now top no_call).f) result.now }
{
    instruction_at(c, calls, top)
}

// Values given to the innermost call, which goes on behind its instruction.
#[tactic(auto, using(crate::proofs::Steps::set_calls, crate::proofs::Steps::room, crate::proofs::Steps::top_is, crate::proofs::Calls::replaced))]
fn take(
    alloc: Global,
    c: &MidCode,
    calls: &mut Vec<MidCall>,
    top: usize,
    outs: &[u32],
    given: &[u16],
)
    requires form { IsMidCode c.now }
    requires state { All (IsCallOf c.now) calls.old.items }
    requires top { top + 1 ≡ length calls.old.items }
    requires onward { MayTake c.now calls.old.items top outs.now }
    ensures calls { calls_over calls.new.items [] ≡ machine.write_all (activation_of (slice_index_or calls.old.items top no_call)) outs.now given.now ∷ calls_over (take top calls.old.items) [] }
    ensures state { All (IsCallOf c.now) calls.new.items }
{
    let call = &mut calls[top];
    write_all(alloc, call, outs, given);
}

// An instruction that stays in the innermost call.
#[tactic(auto, using(crate::proofs::Steps::set_calls, crate::proofs::Steps::room, crate::proofs::Steps::room_of_code, crate::proofs::Steps::top_is, crate::proofs::Steps::behind_top, crate::proofs::Calls::replaced))]
fn stay(
    alloc: Global,
    c: &MidCode,
    calls: &mut Vec<MidCall>,
    top: usize,
    instr: &Mid,
    answer: u16,
) -> Option<Action>
    requires form { IsMidCode c.now }
    requires state { All (IsCallOf c.now) calls.old.items }
    requires top { top + 1 ≡ length calls.old.items }
    requires plain { StaysInCall instr.now }
    requires stands { slice_get (fn_of c.now (slice_index_or calls.old.items top no_call).f).code (slice_index_or calls.old.items top no_call).at ≡ Some instr.now }
    requires names { NamesOwn (fn_of c.now (slice_index_or calls.old.items top no_call).f) instr.now }
    ensures action { result ≡ shown (perform (Some instr.now) c.now (fn_of c.now (slice_index_or calls.old.items top no_call).f) (activation_of (slice_index_or calls.old.items top no_call)) (calls_over (take top calls.old.items) [])) }
    ensures calls { calls_over calls.new.items [] ≡ moved (perform (Some instr.now) c.now (fn_of c.now (slice_index_or calls.old.items top no_call).f) (activation_of (slice_index_or calls.old.items top no_call)) (calls_over (take top calls.old.items) [])) answer }
    ensures state { All (IsCallOf c.now) calls.new.items }
{
    let call = &mut calls[top];
    let code = function_of(c, call.f);
    plain(alloc, code, call, instr, answer)
}

// The function of the innermost call has a Call of g: one more call.
#[tactic(auto, using(crate::proofs::Calls::over_last, crate::proofs::Calls::innermost))]
fn enter(
    alloc: Global,
    c: &MidCode,
    calls: &mut Vec<MidCall>,
    top: usize,
    g: u32,
    ins: &[u32],
) -> Result<(), NoMemory>
    requires form { IsMidCode c.now }
    requires function { g < length c.now.fns }
    requires state { All (IsCallOf c.now) calls.old.items }
    requires top { top + 1 ≡ length calls.old.items }
    ensures calls { OnOk result (calls_over calls.new.items [] ≡ entry c.now g (map (slice_index (slice_index_or calls.old.items top no_call).values) ins.now) ∷ activation_of (slice_index_or calls.old.items top no_call) ∷ calls_over (take top calls.old.items) []) }
    ensures state { All (IsCallOf c.now) calls.new.items }
    ensures same { OnErr result (calls.new.items ≡ calls.old.items) }
{
    let passed = values(alloc, &calls[top], ins)?;
    let call = entered(alloc, c, g, passed.as_slice())?;
    calls.push(call)?;
    Ok(())
}

#[tactic(auto, using(crate::proofs::Steps::may_take_help, crate::proofs::Steps::shown_of, crate::proofs::Steps::moved_of))]
fn step_calls(
    alloc: Global,
    c: &MidCode,
    calls: &mut Vec<MidCall>,
    answer: u16,
) -> Result<Option<Action>, NoMemory>
    requires form { IsMidCode c.now }
    requires state { All (IsCallOf c.now) calls.old.items }
    ensures action { IfOk result (λ o. o ≡ shown (step c.now (calls_over calls.old.items []))) }
    ensures calls { OnOk result (calls_over calls.new.items [] ≡ moved (step c.now (calls_over calls.old.items [])) answer) }
    ensures state { All (IsCallOf c.now) calls.new.items }
    ensures same { OnErr result (calls.new.items ≡ calls.old.items) }
{
    if calls.is_empty() {
        return Ok(None);
    }
    let top = calls.len() - 1;
    let instr = next_instruction(c, calls.as_slice(), top);
    match instr {
        Mid::Call(g, ins, _) => {
            enter(alloc, c, calls, top, *g, ins.as_slice())?;
            Ok(None)
        }
        Mid::Help(h, ins, outs) => {
            let passed = values(alloc, &calls[top], ins.as_slice())?;
            match helped(alloc, c, *h, passed.as_slice())? {
                Some(given) => {
                    take(alloc, c, calls, top, outs.as_slice(), given.as_slice());
                    Ok(None)
                }
                None => {
                    calls.clear();
                    Ok(Some(Action::Fault(2)))
                }
            }
        }
        Mid::Ret(vs) => {
            let given = values(alloc, &calls[top], vs.as_slice())?;
            calls.truncate(top);
            give_back(alloc, c, calls, given.as_slice());
            Ok(None)
        }
        Mid::Fault(code) => {
            calls.clear();
            Ok(Some(Action::Fault(*code)))
        }
        _ => Ok(stay(alloc, c, calls, top, instr, answer)),
    }
}

// The innermost call takes back what the one that it made gives.
#[tactic(auto, using(crate::proofs::Steps::given_back, crate::proofs::Steps::may_take_call))]
fn give_back(alloc: Global, c: &MidCode, calls: &mut Vec<MidCall>, given: &[u16])
    requires form { IsMidCode c.now }
    requires state { All (IsCallOf c.now) calls.old.items }
    ensures calls { calls_over calls.new.items [] ≡ moved (machine.give_back c.now (calls_over calls.old.items []) given.now) 0 }
    ensures state { All (IsCallOf c.now) calls.new.items }
{
    if calls.is_empty() {
        return;
    }
    let top = calls.len() - 1;
    if let Mid::Call(_, _, outs) = next_instruction(c, calls.as_slice(), top) {
        take(alloc, c, calls, top, outs.as_slice(), given);
    }
}

/// One instruction of the innermost call. `answer` answers its own action where that is a Load, an In or a Post. None where the
/// instruction has no action, or no call is open. After NoMemory the state is as it was.
pub fn open_step(
    alloc: Global,
    c: &MidCode,
    s: &mut MidState,
    answer: u16,
) -> Result<Option<Action>, NoMemory>
    requires form { IsMidCode c.now }
    requires state { IsStateOf c.now s.old }
    ensures action { IfOk result (λ o. o ≡ shown (step c.now (activations s.old))) }
    ensures calls { OnOk result (activations s.new ≡ moved (step c.now (activations s.old)) answer) }
    ensures state { IsStateOf c.now s.new }
    ensures same { OnErr result (s.new ≡ s.old) }
{
    let mut calls = mem::replace(&mut s.calls, List::new(Vec::new(alloc))).into_vec();
    let stepped = step_calls(alloc, c, &mut calls, answer);
    s.calls = List::new(calls);
    stepped
}
