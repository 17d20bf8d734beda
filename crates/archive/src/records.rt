// Records of messages, and the one walk that judges them.

ghost use Rattle.std.specs.Prelude.{◌≡◌, ◌+◌, ◌≤◌, length};
ghost use Rattle.std.proofs.Math.Seq.{slice};
ghost use Rattle.wire.specs.Header.{field_at};
ghost use Rattle.archive.specs.Form.{message_fits};
ghost use Rattle.archive.specs.Records.{messages_to};
ghost use Rattle.archive.specs.Walking.{size_in, walked_from, session_in};

use super::form;
use wire::id::SessionId;
use wire::{header, number};

// The most bytes of a message: a record's length is sixteen bits.
pub const MESSAGE_MOST: usize = 65535;

// Whether bytes are a message: 16 to 65,535 bytes whose Length is their number less 8.
#[tactic(auto, unfolding(crate::specs::Form::message_fits, wire::specs::Header::field_at))]
pub fn is_message(m: &[u8]) -> bool
    ensures { result ≡ message_fits m.now }
{
    let len = m.len();
    header::LEN <= len
        && len <= MESSAGE_MOST
        && number::read_number(m, header::LENGTH_AT, 4) == (len - 8) as u64
}

// The size of the record that stands at `at`, before `end`, where one of a message does.
fn record_at(file: &[u8], at: usize, end: usize) -> Option<usize>
    requires { (at ≤ end) × (end ≤ length file.now) }
    ensures { result ≡ size_in (slice at end file.now) }
{
    if end - at < form::LENGTH_LEN {
        return None;
    }
    let n = usize::from(header::two_at(file, at));
    let from = at + form::LENGTH_LEN;
    if end - from < n {
        return None;
    }
    is_message(&file[from..from + n]).then_some(form::LENGTH_LEN + n)
}

// The size of the record that stands at `at`, by its length alone. For this crate's own walks over records that were found whole.
pub fn size_at(file: &[u8], at: usize) -> usize
    requires { at + 2 ≤ length file.now }
    ensures { result ≡ 2 + field_at at 2 file.now }
{
    form::LENGTH_LEN + usize::from(header::two_at(file, at))
}

// The Session ID of the message in the record at `at`. For this crate's own walks: they have looked that it is there.
pub fn session_at(file: &[u8], at: usize) -> SessionId
    requires { at + 14 ≤ length file.now }
    ensures { result.0 ≡ session_in file.now at }
{
    SessionId(header::two_at(file, at + form::LENGTH_LEN + header::SESSION_AT))
}

// How many records of messages the first `size` bytes of a file are, if they are nothing else. A `while`, since no index is counted: `at`
// steps by the records' own sizes.
pub fn walk(file: &[u8], size: usize) -> Option<usize>
    ensures { result ≡ walked_from 0 (messages_to file.now size) }
{
    if file.len() < size {
        return None;
    }
    let mut at = 0;
    let mut count = 0;
    while at < size {
        at += record_at(file, at, size)?;
        count += 1;
    }
    Some(count)
}
