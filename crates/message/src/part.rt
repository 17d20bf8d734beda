// The two parts of a datagram that an answer gives, as sub-slices.

ghost use Rattle.std.specs.Prelude.{◌≡◌};
ghost use Rattle.wire.specs.Part.{part_of};

use super::read::Head;
use wire::part;

// The payload of a message that was read.
pub fn payload_part(d: &[u8], h: Head) -> &[u8]
    ensures { result.now ≡ part_of d.now h.payload }
{
    part::part_of(d, h.payload)
}

// The bytes after a message that was read.
pub fn rest_part(d: &[u8], h: Head) -> &[u8]
    ensures { result.now ≡ part_of d.now h.rest }
{
    part::part_of(d, h.rest)
}
