//! A writer that hands on what was written only once it is flushed, as one with a buffer of its own does.

use std::alloc::Global;
use std::io::{self, Write};

/// What was written, and what of it was handed on.
#[derive(Drop)]
pub struct Handing {
    kept: Vec<u8>,
    pub on: Vec<u8>,
}

impl Handing {
    pub fn new(alloc: Global) -> Handing {
        Handing {
            kept: Vec::new(alloc),
            on: Vec::new(alloc),
        }
    }

    /// What was handed on.
    pub fn on(self) -> Vec<u8> {
        let Handing { kept, on } = self;
        drop(kept);
        on
    }
}

impl Write for Handing {
    fn write(&mut self, buf: &[u8]) -> io::Result<usize> {
        self.kept.write(buf)
    }

    fn flush(&mut self) -> io::Result<()> {
        self.on.write_all(self.kept.as_slice())?;
        self.kept.clear();
        Ok(())
    }
}
