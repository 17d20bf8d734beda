// Numbers of one to eight bytes, read and written; signed numbers and floats by their bits.

ghost use Rattle.std.specs.Prelude.{◌≡◌, ◌+◌, ◌^◌, ◌≤◌, ◌<◌, length};
ghost use Rattle.std.proofs.Math.Seq.{slice};
ghost use Rattle.std.proofs.lemmas.List.Edits.{sets};
ghost use Rattle.std.specs.Float.{binary32, binary64};
ghost use Rattle.std.specs.Float.Ieee.{of_bits};
ghost use Rattle.wire.specs.Number.{big, number_of, number_bytes, signed_by, twos_of};

// The number of the w bytes at `at`. For the library's own crates: they have looked that the bytes are there.
pub fn read_number(p: &[u8], at: usize, w: usize) -> u64
    requires { (at + w ≤ length p.now) × (w ≤ 8) }
    ensures { (result ≡ number_of big (slice at (at + w) p.now)) × (result < 256 ^ w) }
{
    let run = &p[at..at + w];
    let mut v: u64 = 0;
    for i in 0..w {
        v = v * 256 + u64::from(run[i]);
    }
    v
}

// The low w bytes of v, stored at `at`. For the library's own crates: they have looked that there is room.
pub fn write_number(out: &mut [u8], at: usize, w: usize, v: u64)
    requires { (at + w ≤ length out.old) × (w ≤ 8) }
    ensures { out.new ≡ sets out.old at (number_bytes big w v) }
{
    let mut u = v;
    for i in (0..w).rev() {
        out[at + i] = (u % 256) as u8;
        u /= 256;
    }
}

// The signed number that v stands for, where h is half of the numbers of its width. For the library's own crates: v is of that width.
pub fn signed_of(v: u64, h: u64) -> i64
    requires { (0 < h) × (h ≤ 9223372036854775808) × (v < h + h) }
    ensures { result ≡ signed_by h v }
{
    if v < h {
        v as i64
    } else {
        let down = h - 1 - (v - h);
        -1 - (down as i64)
    }
}

// The two's complement of z in eight bytes; its low bytes are those of a narrower width.
pub fn twos_of(z: i64) -> u64
    ensures { result ≡ twos_of 8 z }
{
    z.cast_unsigned()
}

// The float of four bytes. A NaN's pattern gives a NaN: `from_bits` is not defined there. With the next a pair and no trait: a trait's two
// impls would have these bodies, each with its own type, bits and largest pattern.
pub fn float32_of(bits: u32) -> f32
    ensures { result ≡ of_bits binary32 bits }
{
    if 2139095040 < bits % 2147483648 {
        f32::NAN
    } else {
        f32::from_bits(bits)
    }
}

// The float of eight bytes, in the same way.
pub fn float64_of(bits: u64) -> f64
    ensures { result ≡ of_bits binary64 bits }
{
    if 9218868437227405312 < bits % 9223372036854775808 {
        f64::NAN
    } else {
        f64::from_bits(bits)
    }
}
