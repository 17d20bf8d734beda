// The verdicts of document 01, each with its number and its return code.

ghost use Rattle.std.specs.Prelude.{◌≡◌};
ghost use Rattle.wire.specs.Verdict.{verdict_number, return_code};

#[derive(Clone, Copy, PartialEq, Eq, Debug)]
pub enum Verdict {
    Accepted,
    Table,
    Room,
    Short,
    Length,
    Protocol,
    Service,
    Interface,
    Method,
    MessageType,
    Large,
    TagCut,
    Wire,
    Twice,
    FieldCut,
    Overrun,
    Array,
    Text,
    Missing,
    Value,
    Outside,
    Wide,
    Heavy,
}

impl Verdict {
    // The verdict's number.
    pub fn number(self) -> u8
        ensures { result ≡ verdict_number self }
    {
        match self {
            Verdict::Accepted => 0,
            Verdict::Table => 1,
            Verdict::Room => 2,
            Verdict::Short => 10,
            Verdict::Length => 11,
            Verdict::Protocol => 12,
            Verdict::Service => 13,
            Verdict::Interface => 14,
            Verdict::Method => 15,
            Verdict::MessageType => 16,
            Verdict::Large => 17,
            Verdict::TagCut => 20,
            Verdict::Wire => 21,
            Verdict::Twice => 22,
            Verdict::FieldCut => 23,
            Verdict::Overrun => 24,
            Verdict::Array => 25,
            Verdict::Text => 26,
            Verdict::Missing => 27,
            Verdict::Value => 30,
            Verdict::Outside => 31,
            Verdict::Wide => 32,
            Verdict::Heavy => 33,
        }
    }

    // The return code that a verdict answers, if it answers one.
    pub fn return_code(self) -> Option<u8>
        ensures { result ≡ return_code self }
    {
        match self {
            Verdict::Accepted => Some(0),
            Verdict::Service => Some(2),
            Verdict::Method => Some(3),
            Verdict::Protocol => Some(7),
            Verdict::Interface => Some(8),
            Verdict::Short | Verdict::Length | Verdict::Large => Some(9),
            Verdict::TagCut | Verdict::Wire | Verdict::Twice | Verdict::FieldCut => Some(9),
            Verdict::Overrun | Verdict::Array | Verdict::Text | Verdict::Missing => Some(9),
            Verdict::MessageType => Some(10),
            Verdict::Table | Verdict::Room => None,
            Verdict::Value | Verdict::Outside | Verdict::Wide => None,
            Verdict::Heavy => None,
        }
    }
}
