//! The traces of one image with many schedules.

use crate::calls::called;
use crate::mote_trace::MoteTrace;
use nm_base::{List, MemFiles, Name, NoMemory};
use std::alloc::Global;

/// A schedule of one row, for each number below a count, which stands for `$`.
#[derive(Clone, Copy)]
pub struct Schedules<'a> {
    pub count: u32,
    pub row: &'a str,
}

fn file(alloc: Global, name: &str, text: &str) -> Result<(Name, List<u8>), NoMemory> {
    Ok((
        Name::new(alloc, name.as_bytes())?,
        List::new(text.as_bytes().to_vec(alloc)?),
    ))
}

// The lines of the image in the text of a build.
fn image_lines(alloc: Global, built: &str) -> Result<String, NoMemory> {
    let mut image = String::new(alloc);
    let mut is_image = false;
    for line in built.lines() {
        is_image = is_image || line.starts_with("@");
        if is_image {
            image.push_str(line)?;
            image.push('\n')?;
        }
    }
    Ok(image)
}

// The trace of an image with this schedule, in 4,000 slots, behind this report.
fn trace_of(
    alloc: Global,
    report: &str,
    image: &str,
    schedule: &str,
) -> Result<MoteTrace, NoMemory> {
    let texts = vec![in alloc;
        file(alloc, "image.txt", image)?,
        file(alloc, "schedule.txt", schedule)?,
    ]?;
    let mut files = MemFiles::new(texts, Vec::new(alloc));
    let words = "mote image.txt schedule.txt --budget 4000";
    let text = called(alloc, words, &mut files)?;
    MoteTrace::read(
        alloc,
        format!(in alloc; "{report}\ntrace\n{text}")?.as_str(),
    )
}

impl Schedules<'_> {
    /// The traces of the image in the text of a build, each once, in the order in which they come.
    pub fn traces(&self, alloc: Global, built: &str) -> Result<Vec<MoteTrace>, NoMemory> {
        let report = built.lines().next().unwrap_or("");
        let image = image_lines(alloc, built)?;
        let mut traces = Vec::new(alloc);
        for number in 0..self.count {
            let digits = number.to_string(alloc)?;
            let schedule = self.row.replace(alloc, "$", digits.as_str())?;
            let schedule = format!(in alloc; "{schedule}\n")?;
            let trace = trace_of(alloc, report, image.as_str(), schedule.as_str())?;
            if !traces.contains(&trace) {
                traces.push(trace)?;
            }
        }
        Ok(traces)
    }
}
