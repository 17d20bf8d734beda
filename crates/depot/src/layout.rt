// What stands where in a file, for any bytes: numbers, and the record at a place. For this program's own files.

ghost use Rattle.std.specs.Prelude.{◌≡◌, ◌+◌, ◌*◌, ◌^◌, ◌<◌, ◌≤◌, IfSome, IfNone, length};
ghost use Rattle.wire.specs.Header.{field_at};
ghost use Rattle.wire.specs.Part.{part, part_of};
ghost use Rattle.depot.specs.Layout.{field_or};

use archive::form;
use archive::form::Form;
use wire::part::Part;
use wire::{number, part};

// The form of the files.
pub const FORM: Form = Form::One;

// One byte more than an archive may have, which is one more than a message may have too. Of a longer file no more is read.
pub const ROOM: usize = 65536;

// The number of so many bytes at a place, where they are there.
#[tactic(auto, unfolding(wire::specs::Header::field_at))]
fn number_at(d: &[u8], at: usize, width: usize) -> Option<u64>
    requires { (0 < width) × (width ≤ 8) }
    ensures there { IfSome result (λ n. (at + width ≤ length d.now) × (n ≡ field_at at width d.now) × (n < 256 ^ width)) }
    ensures missing { IfNone result (length d.now < at + width) }
{
    if d.len().saturating_sub(at) < width {
        return None;
    }
    Some(number::read_number(d, at, width))
}

// The number of two bytes at a place, and 0 past the end: so `field_or` counts, by which the contracts here speak.
pub fn two_at(d: &[u8], at: usize) -> usize
    ensures { (result ≡ field_or at 2 d.now) × (result < 65536) }
{
    number_at(d, at, 2).unwrap_or(0) as usize
}

// The same of four bytes.
pub fn four_at(d: &[u8], at: usize) -> usize
    ensures { (result ≡ field_or at 4 d.now) × (result < 4294967296) }
{
    number_at(d, at, 4).unwrap_or(0) as usize
}

// The bytes of an index of so many entries. For this program's own words: it counts no more entries than two bytes hold and one.
pub fn index_size(entries: usize) -> usize
    requires { entries ≤ 65536 }
    ensures { (result ≡ 4 * entries) × (result ≤ 262144) }
{
    FORM.entry_size() * entries
}

// Where the record at a place ends, by its length. For this program's own walks, whose places have at most 32 bits.
pub fn record_end(file: &[u8], at: usize) -> usize
    requires { at < 4294967296 }
    ensures { (result ≡ at + 2 + field_or at 2 file.now)
        × (at + 2 ≤ result) × (result < 4295032834) }
{
    at + form::LENGTH_LEN + two_at(file, at)
}

// The message in the record at such a place. For this program's own walks too.
pub fn message_at(file: &[u8], at: usize) -> &[u8]
    requires { at < 4294967296 }
    ensures { result.now ≡ part_of file.now (part (at + 2) (field_or at 2 file.now)) }
{
    let message = Part {
        at: at + form::LENGTH_LEN,
        len: two_at(file, at),
    };
    part::part_of(file, message)
}
