// An output that keeps what is written until it is told to pass it on, or has no room for it.

ghost use Rattle.std.specs.Prelude.{◌≤◌};

use std::io::{self, Write};

// The most bytes that are kept.
const MOST: usize = 8192;

// What is kept, of which the first so many bytes are to be passed on, and where it goes.
#[derive(Drop)]
pub struct Output<W> {
    kept: [u8; MOST],
    len: usize,
    out: W,
    ghost within: { len ≤ 8192 },
}

impl<W: Write> Output<W> {
    // Nothing is kept yet.
    pub fn new(out: W) -> Self {
        Output {
            kept: [0; MOST],
            len: 0,
            out,
        }
    }

    // Passes on what is kept.
    fn pass_on(&mut self) -> io::Result<()> {
        let kept = &self.kept;
        self.out.write_all(&kept[..self.len])?;
        self.len = 0;
        Ok(())
    }

    // Passes on what is kept, and then bytes that have no room behind it.
    #[cold]
    #[inline(never)]
    fn pass_with(&mut self, bytes: &[u8]) -> io::Result<()> {
        self.pass_on()?;
        self.out.write_all(bytes)
    }
}

impl<W: Write> Write for Output<W> {
    fn write(&mut self, bytes: &[u8]) -> io::Result<usize> {
        self.write_all(bytes)?;
        Ok(bytes.len())
    }

    #[inline]
    fn write_all(&mut self, bytes: &[u8]) -> io::Result<()> {
        let len = self.len;
        if MOST - len < bytes.len() {
            return self.pass_with(bytes);
        }
        let end = len + bytes.len();
        self.kept[len..end].copy_from_slice(bytes);
        self.len = end;
        Ok(())
    }

    fn flush(&mut self) -> io::Result<()> {
        self.pass_on()?;
        self.out.flush()
    }
}
