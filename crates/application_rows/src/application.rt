//! Applications as lines of text.

use crate::chain;
use nm_base::{List, MemFiles, Name, NoMemory};
use std::alloc::Global;

#[derive(Drop)]
struct File {
    name: Name,
    text: Vec<u8>,
}

/// An application: how it is called in its answer, the name of its component, whether only numbers are told, the length of its chain,
/// and its files.
#[derive(Drop)]
pub struct Application {
    pub label: Vec<u8>,
    pub name: Name,
    pub numbers: bool,
    pub chain: u32,
    files: Vec<File>,
}

impl Application {
    fn new(alloc: Global, name: &[u8], numbers: bool) -> Result<Application, NoMemory> {
        Ok(Application {
            label: name.to_vec(alloc)?,
            name: Name::new(alloc, name)?,
            numbers,
            chain: 0,
            files: Vec::new(alloc),
        })
    }

    // A chain of so many files.
    fn of_chain(alloc: Global, count: &[u8]) -> Result<Application, NoMemory> {
        let mut label = b"chain ".to_vec(alloc)?;
        label.extend_from_slice(count)?;
        Ok(Application {
            label,
            name: chain::first(alloc)?,
            numbers: true,
            chain: number(count),
            files: Vec::new(alloc),
        })
    }

    /// Takes a line, which begins a file or stands in the last one.
    pub fn take(&mut self, alloc: Global, line: &[u8]) -> Result<(), NoMemory> {
        if let Some(name) = line.strip_prefix(b"+ ") {
            self.files.push(File {
                name: Name::new(alloc, name)?,
                text: Vec::new(alloc),
            })?;
        } else if let Some(file) = self.files.last_mut() {
            file.text.extend_from_slice(line)?;
            file.text.push(b'\n')?;
        }
        Ok(())
    }

    /// Its files in memory.
    pub fn into_files(self, alloc: Global) -> Result<MemFiles, NoMemory> {
        let mut files = Vec::new(alloc);
        for File { name, text } in self.files {
            files.push((name, List::new(text)))?;
        }
        Ok(MemFiles::new(files, Vec::new(alloc)))
    }
}

fn number(digits: &[u8]) -> u32 {
    let mut number: u32 = 0;
    for digit in digits {
        number = number
            .saturating_mul(10)
            .saturating_add(u32::from(digit.saturating_sub(b'0')));
    }
    number
}

/// The application that a line begins, if it does.
pub fn application_of(alloc: Global, line: &[u8]) -> Result<Option<Application>, NoMemory> {
    if let Some(name) = line.strip_prefix(b"= ") {
        return Ok(Some(Application::new(alloc, name, false)?));
    }
    if let Some(name) = line.strip_prefix(b"~ ") {
        return Ok(Some(Application::new(alloc, name, true)?));
    }
    if let Some(count) = line.strip_prefix(b"! ") {
        return Ok(Some(Application::of_chain(alloc, count)?));
    }
    Ok(None)
}
