//! What is done with the lines.

ghost use Rattle.nesc_core.specs.View.{program_of};
ghost use Rattle.nesc_core.specs.WellFormed.{IsWellFormed};

use crate::calls::called;
use crate::mote_trace::MoteTrace;
use crate::rows::row_of;
use crate::schedules::Schedules;
use crate::verdict::verdict_on;
use application_texts::{Application, application_of};
use nesc_core::Program;
use nesc_programs::read_program;
use nm_base::{MemFiles, Name, NoMemory};
use std::alloc::Global;

/// The application whose files are read, or the files of the one that was called.
#[derive(Drop)]
pub struct Session {
    application: Option<Application>,
    files: MemFiles,
}

// What is said of a call.
fn answer_text(alloc: Global, words: &str, row: &str) -> Result<String, NoMemory> {
    Ok(format!(in alloc; "{words}: {row}\n")?)
}

// How many schedules there are, the application, and the row of each.
fn parts_of(repeat: &str) -> (u32, &str, &str) {
    let (count, rest) = repeat.split_once(' ').unwrap_or(("", repeat));
    let (name, row) = rest.split_once(' ').unwrap_or((rest, ""));
    (count.parse().unwrap_or(0), name, row)
}

// The rows of these traces, each once.
fn rows_of(alloc: Global, program: &Program, traces: &[MoteTrace]) -> Result<Vec<String>, NoMemory>
    requires { IsWellFormed (program_of program.now) }
{
    let mut rows = Vec::new(alloc);
    for trace in traces {
        let row = row_of(alloc, trace, verdict_on(alloc, program, trace)?)?;
        if !rows.contains(&row) {
            rows.push(row)?;
        }
    }
    Ok(rows)
}

impl Session {
    /// Without an application.
    pub fn new(alloc: Global) -> Session {
        Session {
            application: None,
            files: MemFiles::new(Vec::new(alloc), Vec::new(alloc)),
        }
    }

    /// Takes a line. Answers what is said of it.
    pub fn take(&mut self, alloc: Global, line: &str) -> Result<String, NoMemory> {
        if let Some(words) = line.strip_prefix("> ") {
            return self.call(alloc, words);
        }
        if let Some(repeat) = line.strip_prefix("* ") {
            return self.call_each(alloc, repeat);
        }
        if !line.starts_with("# ") {
            self.read(alloc, line)?;
        }
        Ok(String::new(alloc))
    }

    // Takes a line that begins an application, or that is one of its own.
    fn read(&mut self, alloc: Global, line: &str) -> Result<(), NoMemory> {
        if let Some(next) = application_of(alloc, line.as_bytes())? {
            self.application = Some(next);
            return Ok(());
        }
        match &mut self.application {
            Some(application) => application.take(alloc, line.as_bytes()),
            None => Ok(()),
        }
    }

    // Has the files of the application, behind its last line.
    fn close(&mut self, alloc: Global) -> Result<(), NoMemory> {
        if let Some(application) = self.application.take() {
            self.files = application.into_files(alloc)?;
        }
        Ok(())
    }

    // The rows of traces of an application; without a program none.
    fn rows(
        &mut self,
        alloc: Global,
        name: &str,
        traces: &[MoteTrace],
    ) -> Result<Vec<String>, NoMemory> {
        let name = Name::new(alloc, name.as_bytes())?;
        match read_program(alloc, &mut self.files, &name) {
            Ok(application) => rows_of(alloc, &application.program, traces),
            Err(_) => Ok(Vec::new(alloc)),
        }
    }

    // Runs the image, and the program after it.
    fn call(&mut self, alloc: Global, words: &str) -> Result<String, NoMemory> {
        self.close(alloc)?;
        let name = words.split_whitespace().nth(1).unwrap_or("");
        let text = called(alloc, words, &mut self.files)?;
        let traces = vec![in alloc; MoteTrace::read(alloc, text.as_str())?]?;
        let rows = self.rows(alloc, name, &traces)?;
        match rows.first() {
            Some(row) => answer_text(alloc, words, row.as_str()),
            None => answer_text(alloc, words, text.lines().next().unwrap_or("")),
        }
    }

    // Builds an application, runs its image with each of so many schedules, and the program after each run.
    fn call_each(&mut self, alloc: Global, repeat: &str) -> Result<String, NoMemory> {
        self.close(alloc)?;
        let (count, name, row) = parts_of(repeat);
        let words = format!(in alloc; "build {name}")?;
        let built = called(alloc, words.as_str(), &mut self.files)?;
        let traces = Schedules { count, row }.traces(alloc, built.as_str())?;
        let rows = self.rows(alloc, name, &traces)?;
        let different = rows.len();
        let mut text = format!(in alloc; "run {name}, {row}: {count} calls, {different} rows\n")?;
        for row in &rows {
            text.push_str(row.as_str())?;
            text.push('\n')?;
        }
        Ok(text)
    }
}
