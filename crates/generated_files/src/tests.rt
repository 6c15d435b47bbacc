//! That the files are made where there is memory, which no clause can say.

use crate::{MAX_MODULES, gen_files};

#[test]
fn the_most_modules_have_files(rt: HostRuntime) {
    match gen_files(rt.alloc(), MAX_MODULES) {
        Ok(files) => assert_eq!(rt; files.len(), 62),
        Err(_) => assert!(rt; false),
    }
}
