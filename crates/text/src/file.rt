// Files by their names, read to their ends; - is standard input.

ghost use Rattle.std.specs.Prelude.{◌≡◌, ◌≢◌, ◌≤◌, ◌<◌, ◌+◌, false, true, Err, IfOk, IsErr, codes, length, vec_len};
ghost use Rattle.text.specs.Input.{IsStartOfOne, IsWholeOfOne, OneFills};

use super::input::InputError;
use super::{failure, input};
use std::io::Input;
use std::rt::Files;
use std::{fs, io, str};

// The files of a runtime, and whether its standard input is closed, which it is once it has been read. The reader is the runtime's and is
// made when it is asked for, so there is none to keep in an Option.
#[derive(Drop)]
pub struct Inputs<'a, R> {
    rt: &'a R,
    is_closed: bool,
}

impl<'a, R: Files + Input> Inputs<'a, R> {
    pub fn new(rt: &'a R) -> Self
        ensures { result.is_closed ≡ false }
    {
        Inputs {
            rt,
            is_closed: false,
        }
    }

    // The first bytes of a file, as many as a buffer has room for.
    pub fn read_start_into<'b>(&mut self, path: &[u8], buf: &'b mut [u8]) -> io::Result<&'b [u8]>
        ensures bound { IfOk result (λ start. length start.now ≤ length buf.old) }
        ensures file { path.now ≢ codes "-" → IfOk result (λ start. IsStartOfOne R.File.remaining (length buf.old) start.now) }
        ensures standard { path.now ≡ codes "-" → IfOk result (λ start. IsStartOfOne R.Reader.remaining (length buf.old) start.now) }
    {
        if path == b"-".as_slice() {
            return self.standard_start(buf);
        }
        input::read_start_into(open(self.rt, path)?, buf)
    }

    // The whole of a file, which has to leave some of a buffer's room.
    pub fn read_whole_into<'b>(
        &mut self,
        path: &[u8],
        buf: &'b mut [u8],
    ) -> Result<&'b [u8], InputError>
        ensures bound { IfOk result (λ whole. length whole.now < length buf.old) }
        ensures file { path.now ≢ codes "-" → IfOk result (λ whole. IsWholeOfOne R.File.remaining whole.now) }
        ensures standard { path.now ≡ codes "-" → IfOk result (λ whole. IsWholeOfOne R.Reader.remaining whole.now) }
        ensures file_too_long { path.now ≢ codes "-" → result ≡ Err InputError.TooLong → OneFills R.File.remaining (length buf.old) }
        ensures standard_too_long { path.now ≡ codes "-" → result ≡ Err InputError.TooLong → OneFills R.Reader.remaining (length buf.old) }
    {
        if path == b"-".as_slice() {
            return self.standard_whole(buf);
        }
        // Written so that `cut_file` has only to name the other function.
        Ok(input::read_whole_into(open(self.rt, path)?, buf)?)
    }

    // The first bytes of standard input. This and the next are calls of their own, so that the reader's buffer lies in no frame of a caller
    // that reads a file.
    #[inline(never)]
    fn standard_start<'b>(&mut self, buf: &'b mut [u8]) -> io::Result<&'b [u8]>
        ensures bound { IfOk result (λ start. length start.now ≤ length buf.old) }
        ensures standard { IfOk result (λ start. IsStartOfOne R.Reader.remaining (length buf.old) start.now) }
    {
        input::read_start_into(self.standard()?, buf)
    }

    // The whole of standard input, which has to leave some of a buffer's room.
    #[inline(never)]
    fn standard_whole<'b>(&mut self, buf: &'b mut [u8]) -> Result<&'b [u8], InputError>
        ensures bound { IfOk result (λ whole. length whole.now < length buf.old) }
        ensures standard { IfOk result (λ whole. IsWholeOfOne R.Reader.remaining whole.now) }
        ensures too_long { result ≡ Err InputError.TooLong → OneFills R.Reader.remaining (length buf.old) }
    {
        input::read_whole_into(self.standard()?, buf)
    }

    // Standard input, which can't be read twice.
    fn standard(&mut self) -> io::Result<R::Reader>
        ensures once { self.new.is_closed ≡ true }
        ensures twice { self.old.is_closed ≡ true → IsErr result }
    {
        if self.is_closed {
            return Err(failure::not_open());
        }
        self.is_closed = true;
        Ok(self.rt.reader())
    }
}

// The same in vectors, of a runtime that has a heap.
impl<'a, R: Files + Input + AllocGlobal> Inputs<'a, R> {
    // The first bytes of a file, at most so many.
    pub fn read_start(&mut self, path: &[u8], most: usize) -> io::Result<Vec<u8>>
        ensures bound { IfOk result (λ start. vec_len start ≤ most) }
        ensures file { path.now ≢ codes "-" → IfOk result (λ start. IsStartOfOne R.File.remaining most start.items) }
        ensures standard { path.now ≡ codes "-" → IfOk result (λ start. IsStartOfOne R.Reader.remaining most start.items) }
    {
        let alloc = self.rt.alloc();
        if path == b"-".as_slice() {
            return input::read_start(alloc, self.standard()?, most);
        }
        input::read_start(alloc, open(self.rt, path)?, most)
    }

    // The whole of a file, which may have at most so many bytes.
    pub fn read_whole(&mut self, path: &[u8], most: usize) -> Result<Vec<u8>, InputError>
        ensures bound { IfOk result (λ whole. vec_len whole ≤ most) }
        ensures file { path.now ≢ codes "-" → IfOk result (λ whole. IsWholeOfOne R.File.remaining whole.items) }
        ensures standard { path.now ≡ codes "-" → IfOk result (λ whole. IsWholeOfOne R.Reader.remaining whole.items) }
        ensures file_too_long { path.now ≢ codes "-" → result ≡ Err InputError.TooLong → OneFills R.File.remaining (most + 1) }
        ensures standard_too_long { path.now ≡ codes "-" → result ≡ Err InputError.TooLong → OneFills R.Reader.remaining (most + 1) }
    {
        let alloc = self.rt.alloc();
        if path == b"-".as_slice() {
            return input::read_whole(alloc, self.standard()?, most);
        }
        // Written so that `vector_start_halved` has only to name the other function.
        Ok(input::read_whole(alloc, open(self.rt, path)?, most)?)
    }
}

// A file's name as text, which the system's calls ask for. One that is no text is that of no file.
pub fn name_of(path: &[u8]) -> io::Result<&str>
    ensures { IfOk result (λ name. name.now ≡ path.now) }
{
    str::from_utf8(path).map_err(|_| failure::no_text())
}

// Opens a file for reading.
pub fn open<R: Files>(rt: &R, path: &[u8]) -> io::Result<R::File> {
    fs::open(rt, name_of(path)?)
}
