//! What is done with the lines.

use crate::calls::called;
use crate::repeats::{counted, take_lines};
use crate::shown::{shortened, shown};
use crate::traces::traces;
use application_texts::{Application, application_of};
use nm_base::{MemFiles, NoMemory};
use std::alloc::Global;

/// The application whose files are read, or the files of the one that was called, and whether its texts are told in short.
#[derive(Drop)]
pub struct Session {
    application: Option<Application>,
    files: MemFiles,
    is_short: bool,
}

impl Session {
    /// Without an application.
    pub fn new(alloc: Global) -> Session {
        Session {
            application: None,
            files: MemFiles::new(Vec::new(alloc), Vec::new(alloc)),
            is_short: false,
        }
    }

    /// Takes a line. Answers what is said of it.
    pub fn take(&mut self, alloc: Global, line: &str) -> Result<String, NoMemory> {
        if let Some(words) = line.strip_prefix("> ") {
            return self.call(alloc, words);
        }
        if let Some(repeat) = line.strip_prefix("* ") {
            return self.call_each(alloc, repeat);
        }
        if !line.starts_with("# ") {
            self.read(alloc, line)?;
        }
        Ok(String::new(alloc))
    }

    // Takes a line that begins an application, or that is one of its own.
    fn read(&mut self, alloc: Global, line: &str) -> Result<(), NoMemory> {
        if let Some(next) = application_of(alloc, line.as_bytes())? {
            self.is_short = next.numbers;
            self.application = Some(next);
            return Ok(());
        }
        match &mut self.application {
            Some(application) => take_lines(alloc, application, line),
            None => Ok(()),
        }
    }

    // Has the files of the application, behind its last line.
    fn close(&mut self, alloc: Global) -> Result<(), NoMemory> {
        if let Some(mut application) = self.application.take() {
            application.take(alloc, b"+ none.txt")?;
            self.files = application.into_files(alloc)?;
        }
        Ok(())
    }

    fn call(&mut self, alloc: Global, words: &str) -> Result<String, NoMemory> {
        self.close(alloc)?;
        let (status, text) = called(alloc, words, &mut self.files)?;
        let told = shown(alloc, text.as_str())?;
        let told = if self.is_short {
            shortened(alloc, told.as_str())?
        } else {
            told
        };
        Ok(format!(in alloc; "{words} -> {status}\n{told}")?)
    }

    // Builds an application, and runs its image with each of so many schedules.
    fn call_each(&mut self, alloc: Global, repeat: &str) -> Result<String, NoMemory> {
        self.close(alloc)?;
        let (count, rest) = counted(repeat);
        let (name, schedule) = rest.split_once(' ').unwrap_or((rest, ""));
        let words = format!(in alloc; "build {name}")?;
        let (_, built) = called(alloc, words.as_str(), &mut self.files)?;
        let texts = traces(alloc, built.as_str(), schedule, count)?;
        let head = shown(alloc, built.as_str())?;
        let different = texts.len();
        let mut all = format!(in alloc;
            "run {name}, {schedule}: {count} calls, {different} texts\n{head}"
        )?;
        for text in &texts {
            all.push_str(text.as_str())?;
        }
        Ok(all)
    }
}
