//! The traces of one image with many schedules.

use crate::calls::{called, file};
use crate::repeats::numbered;
use crate::shown::{image_lines, shown_trace};
use nm_base::{MemFiles, NoMemory};
use std::alloc::Global;

// What is said of a run of an image with this schedule, in 4,000 slots.
fn trace(alloc: Global, image: &str, schedule: &str) -> Result<String, NoMemory> {
    let texts = vec![in alloc;
        file(alloc, "image.txt", image)?,
        file(alloc, "schedule.txt", schedule)?,
    ]?;
    let mut files = MemFiles::new(texts, Vec::new(alloc));
    let (status, text) = called(
        alloc,
        "mote image.txt schedule.txt --budget 4000",
        &mut files,
    )?;
    let told = shown_trace(alloc, text.as_str())?;
    Ok(format!(in alloc; "-> {status}\n{told}")?)
}

/// What is said of the runs of the image in the text of a build, with a schedule for each number below the count, which stands for `$`: each
/// text once, in the order in which they come.
pub fn traces(
    alloc: Global,
    built: &str,
    schedule: &str,
    count: u32,
) -> Result<Vec<String>, NoMemory> {
    let image = image_lines(alloc, built)?;
    let mut texts = Vec::new(alloc);
    for number in 0..count {
        let schedule = format!(in alloc; "{}\n", numbered(alloc, schedule, number)?)?;
        let text = trace(alloc, image.as_str(), schedule.as_str())?;
        if !texts.contains(&text) {
            texts.push(text)?;
        }
    }
    Ok(texts)
}
