//! A chain of files: each is a configuration that names the next one, and the last is a module.

use nm_base::{Name, NoMemory};
use std::alloc::Global;

/// So many files have names of their own.
const MOST: u32 = 26 * 62 * 62;

const DIGITS: &[u8; 62] = b"0123456789abcdefghijklmnopqrstuvwxyzABCDEFGHIJKLMNOPQRSTUVWXYZ";

fn digit(number: u32) -> u8 {
    DIGITS[(number % 62) as usize]
}

// The number of a digit.
fn number_of(digit: u8) -> Option<u32> {
    let place = DIGITS.iter().position(|d| *d == digit)?;
    u32::try_from(place).ok()
}

// A letter and two digits, so that no name is a keyword.
fn word(number: u32) -> [u8; 3] {
    let number = number % MOST;
    let letter = digit(36 + number / (62 * 62));
    [letter, digit(number / 62), digit(number)]
}

/// The name of the first component.
pub fn first(alloc: Global) -> Result<Name, NoMemory> {
    Name::new(alloc, word(0).as_slice())
}

// The number of the file of this name.
fn place_of(name: &[u8]) -> Option<u32> {
    let [a, b, c] = name.strip_suffix(b".nc")? else {
        return None;
    };
    let high = number_of(*a)?.checked_sub(36)?;
    let middle = high.saturating_mul(62).saturating_add(number_of(*b)?);
    Some(middle.saturating_mul(62).saturating_add(number_of(*c)?))
}

/// The text of the file of this name in a chain of so many files.
pub fn text_of(alloc: Global, count: u32, name: &Name) -> Result<Option<Vec<u8>>, NoMemory> {
    let Some(place) = place_of(name.as_bytes()) else {
        return Ok(None);
    };
    if place >= count {
        return Ok(None);
    }
    let mut text = Vec::new(alloc);
    if place + 1 == count {
        text.extend_from_slice(b"module ")?;
        text.extend_from_slice(word(place).as_slice())?;
        text.extend_from_slice(b"{}implementation{}")?;
    } else {
        text.extend_from_slice(b"configuration ")?;
        text.extend_from_slice(word(place).as_slice())?;
        text.extend_from_slice(b"{}implementation{components ")?;
        text.extend_from_slice(word(place + 1).as_slice())?;
        text.extend_from_slice(b";}")?;
    }
    Ok(Some(text))
}
