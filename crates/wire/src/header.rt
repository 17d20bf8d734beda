// The header's layout: 16 bytes, big-endian. The places of its fields.

ghost use Rattle.std.specs.Prelude.{◌≡◌, ◌+◌, ◌≤◌, length};
ghost use Rattle.wire.specs.Header.{field_at};

use super::number;

pub const SERVICE_AT: usize = 0;

pub const METHOD_AT: usize = 2;

pub const LENGTH_AT: usize = 4;

pub const CLIENT_AT: usize = 8;

pub const SESSION_AT: usize = 10;

pub const VERSION_AT: usize = 12;

pub const INTERFACE_AT: usize = 13;

pub const TYPE_AT: usize = 14;

pub const CODE_AT: usize = 15;

// The bytes of a header.
pub const LEN: usize = 16;

// The Protocol Version.
pub const VERSION: u8 = 1;

// The number of the two bytes at a place. For the library's own crates: they have looked that the bytes are there.
#[tactic(auto, unfolding(crate::specs::Header::field_at))]
pub fn two_at(d: &[u8], at: usize) -> u16
    requires { at + 2 ≤ length d.now }
    ensures { result ≡ field_at at 2 d.now }
{
    number::read_number(d, at, 2) as u16
}
