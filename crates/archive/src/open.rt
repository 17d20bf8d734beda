// Opening a file from its trailer: every record is a message, and index and records agree and cover the file exactly.

ghost use Rattle.std.specs.Prelude.{◌≡◌, ◌+◌, ◌*◌, ◌≤◌, ◌<◌, true, length};
ghost use Rattle.std.proofs.Math.Seq.{slice};
ghost use Rattle.archive.specs.Form.{entry_size, limit, index_bytes};
ghost use Rattle.archive.specs.Records.{messages_to};
ghost use Rattle.archive.specs.Opening.{same, checked, archive_of, opening_by};
ghost use Rattle.archive.specs.Walking.{is_whole, listed, entry_agrees, Trailed, opened_by, opening_as};

use super::form::Form;
use super::verdict::Verdict;
use super::{form, records};
use wire::{header, number};

// The answer to opening: the records' size and the number of entries, both 0 on refusal. No Result: `OneOpening` speaks of each field on
// every verdict.
#[derive(Clone, Copy)]
pub struct Opening {
    pub verdict: Verdict,
    pub size: usize,
    pub entries: usize,
}

// What was found in a file that was opened: the records' size, behind which the index stands, and its number of entries.
#[derive(Clone, Copy)]
pub(crate) struct Index {
    pub at: usize,
    pub entries: usize,
}

impl From<Result<Index, Verdict>> for Opening {
    ghost from_gives = { λ r o. o ≡ opening_as r };

    // The answer to opening a file that has an index, or was refused.
    fn from(outcome: Result<Index, Verdict>) -> Opening {
        match outcome {
            Ok(index) => Opening {
                verdict: Verdict::Accepted,
                size: index.at,
                entries: index.entries,
            },
            Err(verdict) => Opening {
                verdict,
                size: 0,
                entries: 0,
            },
        }
    }
}

// Whether the index entry at `to` is that of the record at `at`.
fn entry_agrees(file: &[u8], f: Form, to: usize, at: usize) -> bool
    requires { (to + entry_size f ≤ length file.now) × (at + 14 ≤ length file.now) }
    ensures { result ≡ entry_agrees file.now f to at }
{
    let w = f.offset_width();
    number::read_number(file, to, w) == at as u64
        && header::two_at(file, to + w) == records::session_at(file, at).0
}

// Whether the entries from `size` to `end` are those of the records before `size`. The walk has found them whole, and as many. A `while`:
// `at` steps by the records' own sizes, which no range or chunk has, and `to` goes with it.
fn index_agrees(file: &[u8], f: Form, size: usize, end: usize) -> bool
    requires { (is_whole (messages_to file.now size) ≡ true) × (size ≤ limit f)
        × (size + entry_size f * length (listed (messages_to file.now size)) ≡ end) × (end ≤ length file.now) }
    ensures { result ≡ same (slice size end file.now) (index_bytes f 0 (listed (messages_to file.now size))) }
{
    let mut at = 0;
    let mut to = size;
    while at < size {
        if !entry_agrees(file, f, to, at) {
            return false;
        }
        to += f.entry_size();
        at += records::size_at(file, at);
    }
    true
}

// 52, for a file of a form whose trailer at `end` says that n entries stand at `size`.
fn checked(file: &[u8], f: Form, size: usize, n: usize, end: usize) -> Result<Index, Verdict>
    requires { Trailed file.now f size n end }
    ensures { result ≡ opened_by (checked file.now f (messages_to file.now size)) }
{
    let count = records::walk(file, size).ok_or(Verdict::Records)?;
    if count != n || size + f.entry_size() * n != end || !index_agrees(file, f, size, end) {
        return Err(Verdict::Records);
    }
    Ok(Index {
        at: size,
        entries: n,
    })
}

// The index of a file, or why it is no archive.
pub(crate) fn opened(file: &[u8]) -> Result<Index, Verdict>
    ensures { result ≡ opened_by (archive_of file.now) }
{
    if file.len() < form::TRAILER_LEN {
        return Err(Verdict::Trailer);
    }
    let end = file.len() - form::TRAILER_LEN;
    let f = Form::One;
    if u64::from(header::two_at(file, end + form::FORM_AT)) != f.number()
        || f.limit() < file.len()
    {
        return Err(Verdict::Trailer);
    }
    let at = number::read_number(file, end, 4) as usize;
    let n = usize::from(header::two_at(file, end + form::ENTRIES_AT));
    if end < at + f.entry_size() * n {
        return Err(Verdict::Trailer);
    }
    checked(file, f, at, n, end)
}

// Opens a file: any bytes get a verdict, and an accepted file the records' size and the number of entries.
pub fn open(file: &[u8]) -> Opening
    ensures { result ≡ opening_by (archive_of file.now) }
{
    Opening::from(opened(file))
}
