//! Applications as lines of text.

use nm_base::{List, MemFiles, Name, NoMemory};
use std::alloc::Global;

#[derive(Drop)]
struct File {
    name: Name,
    text: Vec<u8>,
}

/// An application: its component, whether only numbers are told, and its files.
#[derive(Drop)]
pub struct Application {
    pub name: Name,
    pub numbers: bool,
    files: Vec<File>,
}

impl Application {
    fn new(alloc: Global, name: &[u8], numbers: bool) -> Result<Application, NoMemory> {
        Ok(Application {
            name: Name::new(alloc, name)?,
            numbers,
            files: Vec::new(alloc),
        })
    }

    /// Takes a line, which begins a file or stands in the last one.
    pub fn take(&mut self, alloc: Global, line: &[u8]) -> Result<(), NoMemory> {
        if let Some(name) = line.strip_prefix(b"+ ") {
            self.files.push(File {
                name: Name::new(alloc, name)?,
                text: Vec::new(alloc),
            })?;
        } else if let Some(file) = self.files.last_mut() {
            file.text.extend_from_slice(line)?;
            file.text.push(b'\n')?;
        }
        Ok(())
    }

    /// Its files in memory.
    pub fn into_files(self, alloc: Global) -> Result<MemFiles, NoMemory> {
        let mut files = Vec::new(alloc);
        for File { name, text } in self.files {
            files.push((name, List::new(text)))?;
        }
        Ok(MemFiles::new(files, Vec::new(alloc)))
    }
}

/// The application that a line begins, if it does: behind `= ` stands its component's name, and behind `~ ` that of one of which only
/// numbers are told.
pub fn application_of(alloc: Global, line: &[u8]) -> Result<Option<Application>, NoMemory> {
    if let Some(name) = line.strip_prefix(b"= ") {
        return Ok(Some(Application::new(alloc, name, false)?));
    }
    if let Some(name) = line.strip_prefix(b"~ ") {
        return Ok(Some(Application::new(alloc, name, true)?));
    }
    Ok(None)
}
