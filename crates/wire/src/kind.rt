// The fourteen kinds in one table, which reader and writer use.

ghost use Rattle.std.specs.Prelude.{◌≡◌, ◌≤◌, ◌<◌};
ghost use Rattle.wire.specs.Kind.{kind_at, size_of, wire_fits};

// Numbers and no enum: a type row has its kind as a number, and `payload::table::table_fits` finds a wrong one, with verdict 1.
pub const BOOLEAN: usize = 1;

pub const STRING: usize = 12;

pub const ARRAY: usize = 13;

pub const STRUCT: usize = 14;

// A kind's bytes, 0 where a length field tells them, and its wire type.
#[derive(Clone, Copy, PartialEq, Eq, Debug)]
pub struct Kind {
    pub size: u8,
    pub wire: u8,
}

// The table of `kinds` in specs/Kind.antt, entry by entry: 0 stays for a size that is told, for the definition has it so.
pub const KINDS: [Kind; 15] = [
    Kind { size: 0, wire: 8 },
    Kind { size: 1, wire: 0 },
    Kind { size: 1, wire: 0 },
    Kind { size: 2, wire: 1 },
    Kind { size: 4, wire: 2 },
    Kind { size: 8, wire: 3 },
    Kind { size: 1, wire: 0 },
    Kind { size: 2, wire: 1 },
    Kind { size: 4, wire: 2 },
    Kind { size: 8, wire: 3 },
    Kind { size: 4, wire: 2 },
    Kind { size: 8, wire: 3 },
    Kind { size: 0, wire: 4 },
    Kind { size: 0, wire: 4 },
    Kind { size: 0, wire: 4 },
];

// The same at one place in memory: an entry of a const is read from a copy that each reader makes.
static TABLE: [Kind; 15] = KINDS;

// The entry of a kind. For the library's own crates: a checked table has no other kind.
#[tactic(auto, using(crate::proofs::KindLaws::get_d_default))]
pub fn kind_at(k: usize) -> Kind
    requires { k < 15 }
    ensures { result ≡ kind_at k }
{
    TABLE[k]
}

// A kind's bytes. For the library's own crates, as the entry is.
#[tactic(auto, using(crate::proofs::KindLaws::size_small))]
pub fn size_of(k: usize) -> usize
    requires { k < 15 }
    ensures { (result ≡ size_of k) × (result ≤ 8) }
{
    usize::from(kind_at(k).size)
}

// Whether a member of a kind may come with a wire type. For the library's own crates, as the entry is.
pub fn wire_fits(k: usize, wire: u64) -> bool
    requires { k < 15 }
    ensures { result ≡ wire_fits k wire }
{
    let own = u64::from(kind_at(k).wire);
    if own < 4 { wire == own } else { 4 <= wire }
}
