// The fourteen kinds of rows by name and number.

ghost use Rattle.std.specs.Prelude.{◌<◌, ◌≤◌};

use super::float::Precision;
use text::word;
use wire::kind as wire_kind;

// A kind of one number, which an array's elements can have too, with its number in a type row.
#[derive(Clone, Copy, PartialEq, Eq)]
pub enum Scalar {
    Boolean = 1,
    Uint8 = 2,
    Uint16 = 3,
    Uint32 = 4,
    Uint64 = 5,
    Sint8 = 6,
    Sint16 = 7,
    Sint32 = 8,
    Sint64 = 9,
    Float32 = 10,
    Float64 = 11,
}

// What the bytes of a kind's numbers stand for: the most of an unsigned kind, the least of a signed one, how wide a float is.
#[derive(Clone, Copy)]
pub enum Form {
    Boolean,
    Unsigned { most: u64 },
    Signed { least: i64 },
    Float(Precision),
}

impl Scalar {
    // How many bytes a number of the kind has.
    pub fn size(self) -> usize
        ensures { (0 < result) × (result ≤ 8) }
    {
        wire_kind::size_of(self as usize)
    }

    // What the bytes stand for.
    pub fn form(self) -> Form {
        match self {
            Scalar::Boolean => Form::Boolean,
            Scalar::Uint8 => Form::Unsigned {
                most: u64::from(u8::MAX),
            },
            Scalar::Uint16 => Form::Unsigned {
                most: u64::from(u16::MAX),
            },
            Scalar::Uint32 => Form::Unsigned {
                most: u64::from(u32::MAX),
            },
            Scalar::Uint64 => Form::Unsigned { most: u64::MAX },
            Scalar::Sint8 => Form::Signed {
                least: i64::from(i8::MIN),
            },
            Scalar::Sint16 => Form::Signed {
                least: i64::from(i16::MIN),
            },
            Scalar::Sint32 => Form::Signed {
                least: i64::from(i32::MIN),
            },
            Scalar::Sint64 => Form::Signed { least: i64::MIN },
            Scalar::Float32 => Form::Float(Precision::Single),
            Scalar::Float64 => Form::Float(Precision::Double),
        }
    }
}

// A row's kind, an array's with that of its elements.
#[derive(Clone, Copy, PartialEq, Eq)]
pub enum Kind {
    Scalar(Scalar),
    Text,
    Array(Scalar),
    Struct,
}

impl Kind {
    // The kind's number in a type row.
    pub fn number(self) -> u8 {
        match self {
            Kind::Scalar(scalar) => scalar as u8,
            Kind::Text => wire_kind::STRING as u8,
            Kind::Array(_) => wire_kind::ARRAY as u8,
            Kind::Struct => wire_kind::STRUCT as u8,
        }
    }

    // The number of an array's element kind in a type row, where all other kinds have 0.
    pub fn element_number(self) -> u8 {
        match self {
            Kind::Array(element) => element as u8,
            _ => 0,
        }
    }
}

// What a kind's first word says: the kind, or that the word behind it is an array's element kind.
#[derive(Clone, Copy)]
pub enum KindWord {
    Is(Kind),
    Array,
}

// The words that name kinds.
const NAMES: [(&str, KindWord); 14] = [
    ("boolean", KindWord::Is(Kind::Scalar(Scalar::Boolean))),
    ("uint8", KindWord::Is(Kind::Scalar(Scalar::Uint8))),
    ("uint16", KindWord::Is(Kind::Scalar(Scalar::Uint16))),
    ("uint32", KindWord::Is(Kind::Scalar(Scalar::Uint32))),
    ("uint64", KindWord::Is(Kind::Scalar(Scalar::Uint64))),
    ("sint8", KindWord::Is(Kind::Scalar(Scalar::Sint8))),
    ("sint16", KindWord::Is(Kind::Scalar(Scalar::Sint16))),
    ("sint32", KindWord::Is(Kind::Scalar(Scalar::Sint32))),
    ("sint64", KindWord::Is(Kind::Scalar(Scalar::Sint64))),
    ("float32", KindWord::Is(Kind::Scalar(Scalar::Float32))),
    ("float64", KindWord::Is(Kind::Scalar(Scalar::Float64))),
    ("string", KindWord::Is(Kind::Text)),
    ("array", KindWord::Array),
    ("struct", KindWord::Is(Kind::Struct)),
];

// What a word says of a kind.
pub fn of_word(word: &[u8]) -> Option<KindWord> {
    word::named(&NAMES, word)
}

// The kind of numbers that a word names.
pub fn scalar_of_word(word: &[u8]) -> Option<Scalar> {
    match of_word(word)? {
        KindWord::Is(Kind::Scalar(scalar)) => Some(scalar),
        _ => None,
    }
}
