//! A long chain of files, whose reading must not use the native stack.

use crate::{Need, Opener, read_files};
use nm_base::{Fault, Files, List, MemFiles, Name};
use std::alloc::Global;

// So many files may be opened yet; each needs the next one, but for the last two.
#[derive(Drop)]
struct Chain {
    left: u32,
}

impl Opener for Chain {
    ghost use Rattle.std.specs.Prelude.{ℕ};

    ghost State = { ℕ };

    ghost state = { λ c. c.left };

    ghost Opens = { λ told s need found after. Unit {0} };

    ghost left = { λ s. s };

    fn open<F: Files>(
        &mut self,
        alloc: Global,
        _files: &mut F,
        _need: &Need,
    ) -> Result<Vec<Need>, Fault> {
        if self.left == 0 {
            return Err(Fault::NoMemory);
        }
        self.left -= 1;
        let mut needs = Vec::new(alloc);
        if self.left > 1 {
            let name = Name::new(alloc, self.left.to_be_bytes().as_slice())?;
            needs.push(Need {
                name,
                is_interface: false,
            })?;
        }
        Ok(needs)
    }
}

#[test]
fn a_chain_of_files_is_read(rt: HostRuntime) {
    let mut chain = Chain { left: 80_000 };
    let none: Vec<(Name, List<u8>)> = Vec::new(rt.alloc());
    let mut files = MemFiles::new(none, Vec::new(rt.alloc()));
    let app = Name::new(rt.alloc(), b"A".as_slice());
    let main = Name::new(rt.alloc(), b"M".as_slice());
    match (app, main) {
        (Ok(app), Ok(main)) => {
            assert!(rt; read_files(rt.alloc(), &mut files, &mut chain, app, main).is_ok());
            assert_eq!(rt; chain.left, 0);
        }
        _ => assert!(rt; false),
    }
}
