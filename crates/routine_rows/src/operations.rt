//! The routines of operations, at border values and at random ones.

ghost use Rattle.std.specs.Prelude.{◌≡◌, ◌/◌, ◌%◌};

use crate::mote::{Called, Mote};
use crate::tally::Tally;
use crate::wanted::{is_shift, wanted};
use nesc_core::BinOp;
use nm_base::IntType;
use rand_core::utils::NextWord;
use rand_pcg::Pcg32;

/// How many pairs of random values each routine is called with.
const RANDOM_PAIRS: u32 = 200;

/// Counts of shifts round the widths and round the numbers of bytes and of words.
const COUNTS: [u32; 18] = [
    0, 1, 2, 7, 8, 9, 15, 16, 17, 31, 32, 33, 255, 256, 257, 0x7FFF, 0x8000, 0xFFFF,
];

/// The operation of a number of a helper, where it has one.
pub fn operation_of(number: u32) -> Option<(BinOp, IntType)> {
    let t = match number / 8 {
        0 => IntType::I8,
        1 => IntType::U8,
        2 => IntType::I16,
        3 => IntType::U16,
        4 => IntType::I32,
        _ => IntType::U32,
    };
    match number % 8 {
        0 => Some((BinOp::Mul, t)),
        1 => Some((BinOp::Div, t)),
        2 => Some((BinOp::Rem, t)),
        3 => Some((BinOp::Shl, t)),
        4 => Some((BinOp::Shr, t)),
        _ => None,
    }
}

/// Calls the routine of an operation with all pairs of border values, and with random ones.
pub fn try_operation(mote: &mut Mote, op: BinOp, t: IntType) -> Tally {
    let mut tally = Tally::new();
    for x in borders(t) {
        if is_shift(op) {
            for count in COUNTS {
                try_pair(mote, &mut tally, op, t, x, count);
            }
        } else {
            for y in borders(t) {
                try_pair(mote, &mut tally, op, t, x, y);
            }
        }
    }
    let mut random = Pcg32::new(42, 54);
    for i in 0..RANDOM_PAIRS {
        let x = random.next_word();
        let y = random.next_word() >> (i % 32);
        try_pair(mote, &mut tally, op, t, x, y);
    }
    tally
}

/// Calls a routine that gives back what it is passed.
pub fn try_return(mote: &mut Mote) -> Tally {
    let mut tally = Tally::new();
    let mut random = Pcg32::new(42, 54);
    for _ in 0..RANDOM_PAIRS {
        let passed = words_of(random.next_word(), random.next_word());
        let called = mote.call(passed);
        tally.count(&called, comes_back(&called) && called.words == passed);
    }
    tally
}

// The numbers round those where a sign or a half changes, as bits.
fn borders(t: IntType) -> [u32; 10] {
    match t {
        IntType::I8 | IntType::U8 => [0, 1, 2, 3, 0x7E, 0x7F, 0x80, 0x81, 0xFE, 0xFF],
        IntType::I16 | IntType::U16 => [
            0, 1, 0xFF, 0x100, 0x101, 0x7FFF, 0x8000, 0x8001, 0xFFFE, 0xFFFF,
        ],
        IntType::I32 | IntType::U32 => [
            0,
            1,
            0xFFFF,
            0x1_0000,
            0x1_0001,
            0x7FFF_FFFF,
            0x8000_0000,
            0x8000_0001,
            0xFFFF_FFFE,
            0xFFFF_FFFF,
        ],
    }
}

// A pair with a divisor of 0 is none: code tests it before the call.
fn try_pair(mote: &mut Mote, tally: &mut Tally, op: BinOp, t: IntType, x: u32, y: u32) {
    if let Some(bits) = wanted(op, t, x, y) {
        let called = mote.call(passed(t, x, y));
        tally.count(
            &called,
            comes_back(&called) && gives(t, &called.words, bits),
        );
    }
}

fn comes_back(called: &Called) -> bool {
    called.is_back && called.keeps
}

fn is_wide(t: IntType) -> bool {
    matches!(t, IntType::I32 | IntType::U32)
}

// A wide number is passed as its low and its high half; what stands above a narrow one is passed over.
fn passed(t: IntType, x: u32, y: u32) -> [u16; 4] {
    let [low_x, high_x, low_y, high_y] = words_of(x, y);
    if is_wide(t) {
        [low_x, high_x, low_y, high_y]
    } else {
        [low_x, low_y, high_x, high_y]
    }
}

fn words_of(x: u32, y: u32) -> [u16; 4] {
    [low(x), high(x), low(y), high(y)]
}

fn low(n: u32) -> u16
    ensures { result ≡ n % 65536 }
{
    (n % 65_536) as u16
}

fn high(n: u32) -> u16
    ensures { result ≡ n / 65536 }
{
    (n / 65_536) as u16
}

fn gives(t: IntType, words: &[u16; 4], bits: u32) -> bool {
    words[0] == low(bits) && (!is_wide(t) || words[1] == high(bits))
}
