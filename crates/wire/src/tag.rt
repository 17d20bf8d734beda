// A tag's parts, and how many bytes a wire type has after it. Wire types are numbers and no enum: a tag has any of 0 to 7, and these
// functions answer for every number.

ghost use Rattle.std.specs.Prelude.{◌≡◌, ◌≤◌, ◌<◌};
ghost use Rattle.wire.specs.Tag.{wire_of, ident_of, tag_of, fixed_size, field_width};

// A tag's wire type.
pub fn wire_of(tag: u64) -> u64
    ensures { result ≡ wire_of tag }
{
    tag / 4096 % 8
}

// A tag's Data ID.
pub fn ident_of(tag: u64) -> u64
    ensures { result ≡ ident_of tag }
{
    tag % 4096
}

// The tag of a wire type and a Data ID, with bit 15 at 0. For the library's own crates: both are of a checked table.
pub fn tag_of(wire: u64, ident: u64) -> u64
    requires { (wire < 8) × (ident < 4096) }
    ensures { (result ≡ tag_of 0 wire ident) × (result < 32768) }
{
    wire * 4096 + ident
}

// The bytes of a number of wire type 0 to 3.
pub fn fixed_size(wire: u64) -> usize
    ensures { (result ≡ fixed_size wire) × (result ≤ 8) }
{
    match wire {
        0 => 1,
        1 => 2,
        2 => 4,
        _ => 8,
    }
}

// The bytes of the length field of wire type 4 to 7, where the table's width is given.
pub fn field_width(width: usize, wire: u64) -> usize
    ensures { result ≡ field_width width wire }
{
    match wire {
        4 => width,
        5 => 1,
        6 => 2,
        _ => 4,
    }
}
