//! Lines that stand for many.

use application_texts::Application;
use nm_base::NoMemory;
use std::alloc::Global;

/// The number before the first blank, and the text behind it.
pub fn counted(line: &str) -> (u32, &str) {
    match line.split_once(' ') {
        Some((count, text)) => (count.parse().unwrap_or(0), text),
        None => (0, ""),
    }
}

/// The text with this number in the place of each `$`.
pub fn numbered(alloc: Global, text: &str, number: u32) -> Result<String, NoMemory> {
    let digits = number.to_string(alloc)?;
    Ok(text.replace(alloc, "$", digits.as_str())?)
}

// Takes a line of a file, or those that it stands for, as they are.
fn take_line(alloc: Global, application: &mut Application, line: &str) -> Result<(), NoMemory> {
    let Some(repeat) = line.strip_prefix("! ") else {
        return application.take(alloc, line.as_bytes());
    };
    let (count, text) = counted(repeat);
    for number in 0..count {
        for line in numbered(alloc, text, number)?.as_str().split("\\n") {
            application.take(alloc, line.as_bytes())?;
        }
    }
    Ok(())
}

/// Takes a line of a file, or those that it stands for, each of which may stand for many.
pub fn take_lines(
    alloc: Global,
    application: &mut Application,
    line: &str,
) -> Result<(), NoMemory> {
    let Some(repeat) = line.strip_prefix("! ") else {
        return application.take(alloc, line.as_bytes());
    };
    let (count, text) = counted(repeat);
    for number in 0..count {
        for line in numbered(alloc, text, number)?.as_str().split("\\n") {
            take_line(alloc, application, line)?;
        }
    }
    Ok(())
}
