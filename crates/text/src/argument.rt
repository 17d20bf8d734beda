// The program's arguments, as bytes. Argument 0 is the program's name.

ghost use Rattle.std.specs.Prelude.{◌≡◌, ◌≤◌, ◌<◌, Err, IsTrue, OnOk, OnSome, length, take};

use std::env::FillError;
use std::rt::Env;

// The most bytes that an argument may have.
pub const MOST: usize = 4096;

// An argument, at the start of a buffer.
#[derive(Clone, Copy)]
pub struct Argument {
    buffer: [u8; MOST],
    len: usize,
    ghost short: { len ≤ 4096 },
}

impl Argument {
    pub fn as_bytes(&self) -> &[u8]
        ensures bytes { result.now ≡ take self.now.len self.now.buffer }
        ensures short { length result.now ≤ 4096 }
    {
        &self.buffer[..self.len]
    }
}

// One with no bytes.
impl Default for Argument {
    fn default() -> Argument {
        Argument {
            buffer: [0; MOST],
            len: 0,
        }
    }
}

// The arguments of a runtime. Each is read when it is asked for.
#[derive(Drop)]
pub struct Arguments<'a, E> {
    rt: &'a E,
    count: usize,
}

impl<'a, E: Env> Arguments<'a, E> {
    pub fn new(rt: &'a E) -> Arguments<'a, E>
        ensures { result.rt.now ≡ rt.now }
    {
        Arguments {
            rt,
            count: count(rt),
        }
    }

    // How many arguments there are, the program's name among them.
    pub fn len(&self) -> usize
        ensures { result ≡ self.now.count }
    {
        self.count
    }

    // Reads an argument.
    fn read(&self, i: usize) -> Result<Argument, FillError>
        ensures there { OnOk result (i < self.now.count) }
        ensures too_long { result ≡ Err FillError.TooLong → i < self.now.count }
    {
        if self.len() <= i {
            return Err(FillError::NotPresent);
        }
        let mut buffer = [0; MOST];
        let len = self.rt.arg(i, &mut buffer)?;
        Ok(Argument { buffer, len })
    }

    // An argument, unless it is missing or too long.
    pub fn get(&self, i: usize) -> Option<Argument>
        ensures { OnSome result (i < self.now.count) }
    {
        self.read(i).ok()
    }

    // Whether there is an argument that is too long.
    pub fn is_longer(&self, i: usize) -> bool
        ensures { IsTrue result → i < self.now.count }
    {
        matches!(self.read(i), Err(FillError::TooLong))
    }
}

// How many arguments a runtime has.
fn count<E: Env>(rt: &E) -> usize {
    for i in 0..usize::MAX {
        if let Err(FillError::NotPresent) = rt.arg(i, &mut [0; 1]) {
            return i;
        }
    }
    usize::MAX
}
