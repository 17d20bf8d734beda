// Adding a message to a file's records, and closing the file. Both are told the records' size so far; a refusal changes no byte.

ghost use Rattle.std.specs.Prelude.{◌≡◌, ◌+◌, ◌*◌, ◌≤◌, ◌<◌, true, length};
ghost use Rattle.std.proofs.lemmas.List.Edits.{sets};
ghost use Rattle.archive.specs.Form.{entry_size, record_bytes, index_bytes, trailer_bytes};
ghost use Rattle.archive.specs.Records.{messages_to};
ghost use Rattle.archive.specs.Adding.{is_full, adding, closing, kept_by, file_by};
ghost use Rattle.archive.specs.Walking.{is_whole, listed, kept_as};

use super::form::Form;
use super::verdict::Verdict;
use super::{form, records};
use wire::{number, part};

// The form in which files are closed.
const WRITTEN: Form = Form::One;

// The answer to adding and closing: the verdict, and the records' or the file's new size, 0 on refusal. No Result: `OneAdding` and
// `OneClosing` speak of both fields on every verdict.
#[derive(Clone, Copy)]
pub struct Kept {
    pub verdict: Verdict,
    pub size: usize,
}

impl From<Result<usize, Verdict>> for Kept {
    ghost from_gives = { λ r k. k ≡ kept_as r };

    // The answer to a call that gave a size, or was refused.
    fn from(outcome: Result<usize, Verdict>) -> Kept {
        match outcome {
            Ok(size) => Kept {
                verdict: Verdict::Accepted,
                size,
            },
            Err(verdict) => Kept { verdict, size: 0 },
        }
    }
}

// Whether records of `size` bytes, n entries and the trailer don't fit `room` bytes or the form's limit.
fn is_full(f: Form, room: usize, size: usize, n: usize) -> bool
    ensures { result ≡ is_full f room size n }
{
    let most = f.limit();
    if most < size || most < n {
        return true;
    }
    let whole = size + f.entry_size() * n + form::TRAILER_LEN;
    room < whole || most < whole
}

// A message's record at `at`.
#[tactic(auto, using(crate::proofs::AddLaws::record_stores))]
fn put_record(file: &mut [u8], at: usize, m: &[u8])
    requires { at + (2 + length m.now) ≤ length file.old }
    ensures { file.new ≡ sets file.old at (record_bytes m.now) }
{
    number::write_number(file, at, form::LENGTH_LEN, m.len() as u64);
    part::put_run(file, at + form::LENGTH_LEN, m, 0, m.len());
}

// The records' size with a message added to those of a file, which have `told` bytes so far, or why there is none.
fn added(file: &mut [u8], told: usize, m: &[u8]) -> Result<usize, Verdict>
    ensures { (kept_as result ≡ kept_by told (adding file.old told m.now))
        × (file.new ≡ file_by file.old told (adding file.old told m.now)) }
{
    let count = records::walk(file, told).ok_or(Verdict::Records)?;
    if !records::is_message(m) {
        return Err(Verdict::NoMessage);
    }
    if WRITTEN.limit() < told {
        return Err(Verdict::Full);
    }
    let size = told + (form::LENGTH_LEN + m.len());
    if is_full(WRITTEN, file.len(), size, count + 1) {
        return Err(Verdict::Full);
    }
    put_record(file, told, m);
    Ok(size)
}

// Adds a message to the records of a file, which have `told` bytes so far. The record alone is written.
pub fn add(file: &mut [u8], told: usize, m: &[u8]) -> Kept
    ensures { (result ≡ kept_by told (adding file.old told m.now))
        × (file.new ≡ file_by file.old told (adding file.old told m.now)) }
{
    Kept::from(added(file, told, m))
}

// The index of the records before `size`, stored behind them: each record's offset and Session ID. A `while`: `at` steps by the records'
// own sizes, and an iterator over them could not live beside the stores into the file that it reads.
fn put_index(file: &mut [u8], f: Form, size: usize)
    requires { (is_whole (messages_to file.old size) ≡ true)
        × (size + entry_size f * length (listed (messages_to file.old size)) ≤ length file.old) }
    ensures { file.new ≡ sets file.old size (index_bytes f 0 (listed (messages_to file.old size))) }
{
    let mut at = 0;
    let mut to = size;
    while at < size {
        let k = records::size_at(file, at);
        let session = records::session_at(file, at);
        let w = f.offset_width();
        number::write_number(file, to, w, at as u64);
        number::write_number(file, to + w, 2, session.0 as u64);
        to += f.entry_size();
        at += k;
    }
}

// The trailer at `to`: the index's offset, the number of entries, the form number.
#[tactic(auto, using(crate::proofs::AddLaws::trailer_stores))]
fn put_trailer(file: &mut [u8], to: usize, f: Form, at: usize, n: usize)
    requires { to + 8 ≤ length file.old }
    ensures { file.new ≡ sets file.old to (trailer_bytes f at n) }
{
    number::write_number(file, to, 4, at as u64);
    number::write_number(file, to + form::ENTRIES_AT, 2, n as u64);
    number::write_number(file, to + form::FORM_AT, 2, f.number());
}

// The size of a file that is closed, whose records have `told` bytes, or why it is not.
fn closed(file: &mut [u8], told: usize) -> Result<usize, Verdict>
    ensures { (kept_as result ≡ kept_by told (closing file.old told))
        × (file.new ≡ file_by file.old told (closing file.old told)) }
{
    let count = records::walk(file, told).ok_or(Verdict::Records)?;
    if is_full(WRITTEN, file.len(), told, count) {
        return Err(Verdict::Full);
    }
    put_index(file, WRITTEN, told);
    let to = told + WRITTEN.entry_size() * count;
    put_trailer(file, to, WRITTEN, told, count);
    Ok(to + form::TRAILER_LEN)
}

// Closes a file whose records have `told` bytes. Index and trailer alone are written.
pub fn close(file: &mut [u8], told: usize) -> Kept
    ensures { (result ≡ kept_by told (closing file.old told))
        × (file.new ≡ file_by file.old told (closing file.old told)) }
{
    Kept::from(closed(file, told))
}
