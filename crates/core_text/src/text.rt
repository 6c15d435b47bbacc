//! Texts that grow, and how places stand in them.

use nm_base::{NoMemory, Pos};
use std::alloc::Global;

/// What is shown of a place: its column, or its file's number, line and column.
#[derive(Clone, Copy)]
pub enum Places {
    Column,
    Whole,
}

/// A text that grows.
#[derive(Drop)]
pub struct Text {
    pub alloc: Global,
    pub bytes: Vec<u8>,
    places: Places,
}

impl Text {
    /// An empty text, in which so much of places is shown.
    pub fn new(alloc: Global, places: Places) -> Text {
        Text {
            alloc,
            bytes: Vec::new(alloc),
            places,
        }
    }

    /// Appends bytes.
    pub fn put(&mut self, text: &[u8]) -> Result<(), NoMemory> {
        self.bytes.extend_from_slice(text)?;
        Ok(())
    }

    /// Appends bytes, and behind them a number.
    pub fn put_number(&mut self, before: &[u8], n: i64) -> Result<(), NoMemory> {
        self.put(before)?;
        let text = format!(in self.alloc; "{n}")?;
        self.put(text.as_bytes())
    }

    fn put_whole(&mut self, at: Pos) -> Result<(), NoMemory> {
        self.put_number(b" @", i64::from(at.file))?;
        self.put_number(b":", i64::from(at.line))?;
        self.put_number(b":", i64::from(at.col))
    }

    /// Appends a place behind ` @`.
    pub fn put_place(&mut self, at: Pos) -> Result<(), NoMemory> {
        match self.places {
            Places::Column => self.put_number(b" @", i64::from(at.col)),
            Places::Whole => self.put_whole(at),
        }
    }
}
