// Parts of lent bytes: as places in an answer, as sub-slices, and copied.

ghost use Rattle.std.specs.Prelude.{◌≡◌, ◌+◌, ◌≤◌, length};
ghost use Rattle.std.proofs.lemmas.List.Edits.{sets};
ghost use Rattle.wire.specs.Part.{part_of, run_of};

// A part of lent bytes: the place of its first byte, and how many bytes it has.
#[derive(Clone, Copy, PartialEq, Eq, Debug)]
pub struct Part {
    pub at: usize,
    pub len: usize,
}

// The bytes of a part; none where it does not lie in what was lent.
pub fn part_of(d: &[u8], p: Part) -> &[u8]
    ensures { result.now ≡ part_of d.now p }
{
    d.get(p.at..).unwrap_or(&[]).get(..p.len).unwrap_or(&[])
}

// The `len` bytes of `from` at `place`, copied to `at`. For the library's own crates: they have looked that both have the room.
pub fn put_run(out: &mut [u8], at: usize, from: &[u8], place: usize, len: usize)
    requires { (at + len ≤ length out.old) × (place + len ≤ length from.now) }
    ensures { out.new ≡ sets out.old at (run_of from.now place len) }
{
    // Byte by byte: copy_from_slice calls memmove, a name that the static library would need from outside for this alone.
    for i in 0..len {
        out[at + i] = from[place + i];
    }
}
