//! Places in the tokens of a file.

ghost use Rattle.std.specs.Prelude.{◌≡◌, IfOk};
ghost use Rattle.wire_loading.specs.Places as spec;

use nesc_preproc::Reading;
use nm_base::{Name, NoMemory, Pos, Token};

fn begins_unit(token: &Token) -> bool
    ensures { result ≡ spec.begins_unit token.now }
{
    let text = token.text.as_bytes();
    text == b"interface".as_slice()
        || text == b"module".as_slice()
        || text == b"configuration".as_slice()
}

fn first_place(tokens: &[Token]) -> Pos
    ensures { result ≡ spec.first_place tokens.now }
{
    match tokens.first() {
        Some(token) => token.pos,
        None => Pos {
            file: 0,
            line: 1,
            col: 1,
        },
    }
}

/// The place of the name of the component or interface.
pub fn name_place(tokens: &[Token]) -> Pos
    ensures { result ≡ spec.name_place tokens.now }
{
    let mut rest = tokens;
    while let Some((token, more)) = rest.split_first() {
        if begins_unit(token) {
            return first_place(more);
        }
        rest = more;
    }
    first_place(rest)
}

// The number of a file that was read.
#[tactic(auto, using(crate::proofs::Numbers::numbers))]
fn number_of(reading: &Reading, file: &Name) -> Result<u32, NoMemory>
    ensures { IfOk result (λ k. k ≡ spec.number_of (spec.names_in reading.now) file.now) }
{
    let mut k: u32 = 0;
    while let Some(name) = reading.name(k) {
        if *file == *name {
            return Ok(k);
        }
        let Some(next) = k.checked_add(1) else {
            return Err(NoMemory);
        };
        k = next;
    }
    Ok(0)
}

/// The file in which these tokens of it are refused where they end too early: that of the first one, or its own where it has none.
pub fn file_told(reading: &Reading, tokens: &[Token], file: &Name) -> Result<u32, NoMemory>
    ensures { IfOk result (λ k. k ≡ spec.file_told tokens.now reading.now file.now) }
{
    match tokens.first() {
        Some(token) => Ok(token.pos.file),
        None => number_of(reading, file),
    }
}
