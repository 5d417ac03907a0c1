// A stream that gives and takes one byte and then fails.
ghost use Rattle.std.specs.Prelude.{◌≡◌, IfOk};

use std::io;
use std::io::{ErrorKind, Read, Write};

/// A stream that fails once it is used.
#[derive(Drop)]
pub struct Broken {
    pub is_used: bool,
}

impl Broken {
    // The one byte, and a failure from then on.
    fn step(&mut self) -> io::Result<usize>
        ensures { IfOk result (λ n. n ≡ 1) }
    {
        if self.is_used {
            return Err(io::Error::from(ErrorKind::Other));
        }
        self.is_used = true;
        Ok(1)
    }
}

impl Read for Broken {
    fn read(&mut self, buf: &mut [u8]) -> io::Result<usize> {
        if buf.is_empty() {
            return Ok(0);
        }
        self.step()
    }
}

impl Write for Broken {
    fn write(&mut self, buf: &[u8]) -> io::Result<usize> {
        if buf.is_empty() {
            return Ok(0);
        }
        self.step()
    }

    fn flush(&mut self) -> io::Result<()> {
        Ok(())
    }
}
