// The rows of numbers.

ghost use Rattle.std.specs.Prelude.{◌≡◌, ◌+◌, ◌^◌, ◌≤◌, ◌<◌};
ghost use Rattle.wire.specs.Number.{half};
ghost use Rattle.wire.specs.Kind.{size_of, string};
ghost use Rattle.payload.specs.Row.{number_row};

use super::row::{Row, Value};
use wire::{kind, number};

// Half of the numbers of a signed kind.
fn half_of(k: usize) -> u64
    requires { (5 < k) × (k < 10) }
    ensures { (result ≡ half (size_of k)) × (result + result ≡ 256 ^ size_of k) × (0 < result) × (result ≤ 9223372036854775808) }
{
    match k {
        6 => 128,
        7 => 32768,
        8 => 2147483648,
        _ => 9223372036854775808,
    }
}

// The row of a number of a kind 1 to 11. A boolean is its byte's lowest bit. For this crate's own walk, which has looked at the kind.
pub(crate) fn number_row(k: usize, v: u64) -> Row
    requires { (0 < k) × (k < string) × (v < 256 ^ size_of k) }
    ensures { result ≡ number_row k v }
{
    match k {
        kind::BOOLEAN => Row::plain(Value::Unsigned(v % 2)),
        0..6 => Row::plain(Value::Unsigned(v)),
        6..10 => Row::plain(Value::Signed(number::signed_of(v, half_of(k)))),
        10 => Row {
            value: Value::Float32(number::float32_of(v as u32)),
            bits: v,
        },
        _ => Row {
            value: Value::Float64(number::float64_of(v)),
            bits: v,
        },
    }
}
