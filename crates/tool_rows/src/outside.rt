//! Calls of the top call whose files or sink fail.

use crate::calls::{file, status_of};
use nm_base::{MemFiles, MemSink, NoMemory};
use std::alloc::Global;

/// The reads that fail, the bytes that the sink takes, and the writes that fail.
pub type Outside<'a> = (&'a [u32], usize, &'a [u32]);

/// A read of the application, one of the schedule, the first write, and the eighth byte.
pub const OUTSIDE: [Outside; 4] = [
    (&[0], 20_000, &[]),
    (&[1], 20_000, &[]),
    (&[], 20_000, &[0]),
    (&[], 7, &[]),
];

const APPLICATION: &str = "module OneC { uses interface Boot; }
implementation {
  event void Boot.booted() { port_write(0x0120, 5); }
}
";

fn files(alloc: Global, fail: Vec<u32>) -> Result<MemFiles, NoMemory> {
    let all = vec![in alloc;
        file(alloc, "OneC.nc", APPLICATION)?,
        file(alloc, "none.txt", "")?,
    ]?;
    Ok(MemFiles::new(all, fail))
}

/// The status and the text of a run with this outside.
pub fn cut_short(alloc: Global, outside: &Outside) -> Result<(u8, Vec<u8>), NoMemory> {
    let (reads, room, writes) = outside;
    let mut files = files(alloc, reads.to_vec(alloc)?)?;
    let mut out = MemSink::new(alloc, *room, writes.to_vec(alloc)?)?;
    let status = status_of(alloc, "run OneC none.txt", &mut files, &mut out)?;
    Ok((status, out.bytes().to_vec(alloc)?))
}
