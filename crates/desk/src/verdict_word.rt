// The verdicts in the scope paper's words.

use wire::verdict::Verdict;

// The verdicts in the order of their numbers, and how many there are.
pub const COUNT: usize = 23;

pub const ALL: [Verdict; COUNT] = [
    Verdict::Accepted,
    Verdict::Table,
    Verdict::Room,
    Verdict::Short,
    Verdict::Length,
    Verdict::Protocol,
    Verdict::Service,
    Verdict::Interface,
    Verdict::Method,
    Verdict::MessageType,
    Verdict::Large,
    Verdict::TagCut,
    Verdict::Wire,
    Verdict::Twice,
    Verdict::FieldCut,
    Verdict::Overrun,
    Verdict::Array,
    Verdict::Text,
    Verdict::Missing,
    Verdict::Value,
    Verdict::Outside,
    Verdict::Wide,
    Verdict::Heavy,
];

// A verdict's word.
pub fn word(verdict: Verdict) -> &'static str {
    match verdict {
        Verdict::Accepted => "accepted",
        Verdict::Table => "table",
        Verdict::Room => "room",
        Verdict::Short => "short",
        Verdict::Length => "length",
        Verdict::Protocol => "protocol",
        Verdict::Service => "service",
        Verdict::Interface => "interface",
        Verdict::Method => "method",
        Verdict::MessageType => "type",
        Verdict::Large => "large",
        Verdict::TagCut => "tag cut",
        Verdict::Wire => "wire",
        Verdict::Twice => "twice",
        Verdict::FieldCut => "field cut",
        Verdict::Overrun => "overrun",
        Verdict::Array => "array",
        Verdict::Text => "text",
        Verdict::Missing => "missing",
        Verdict::Value => "value",
        Verdict::Outside => "outside",
        Verdict::Wide => "wide",
        Verdict::Heavy => "heavy",
    }
}

// Whether a verdict is given at a place: a byte of the payload that is read, or a row of what is written.
pub fn has_place(verdict: Verdict) -> bool {
    match verdict {
        Verdict::Accepted | Verdict::Table | Verdict::Room => false,
        Verdict::Short | Verdict::Length | Verdict::Protocol | Verdict::Service => false,
        Verdict::Interface | Verdict::Method | Verdict::MessageType | Verdict::Large => false,
        Verdict::TagCut | Verdict::Wire | Verdict::Twice | Verdict::FieldCut => true,
        Verdict::Overrun | Verdict::Array | Verdict::Text | Verdict::Missing => true,
        Verdict::Value | Verdict::Outside | Verdict::Wide | Verdict::Heavy => true,
    }
}

// Why a verdict is given, behind a colon, where its word doesn't say enough.
pub fn why(verdict: Verdict) -> &'static str {
    match verdict {
        Verdict::Accepted | Verdict::Table | Verdict::Room => "",
        Verdict::Short => ": fewer than 16 bytes",
        Verdict::Length => ": Length below 8, or the message goes past the datagram's end",
        Verdict::Protocol => ": the Protocol Version is not 1",
        Verdict::Service => ": the Service ID is not the table's",
        Verdict::Interface => ": the Interface Version is not the table's",
        Verdict::Method => ": the Method ID is not the table's",
        Verdict::MessageType => ": the Message Type is not the table's",
        Verdict::Large => ": the payload has over 1400 bytes",
        Verdict::TagCut => ": one byte is left where a tag has two",
        Verdict::Wire => ": a known member, and its wire type is not its kind's",
        Verdict::Twice => ": a known member that was met before at this level",
        Verdict::FieldCut => ": a length field goes past its level's end",
        Verdict::Overrun => ": content goes past its level's end",
        Verdict::Array => ": an array's length is no multiple of its element's size",
        Verdict::Text => ": a string's content is not EF BB BF, text and 00",
        Verdict::Missing => ": a level ends without a required member",
        Verdict::Value => ": a row's value is not of its kind",
        Verdict::Outside => ": a run past the content",
        Verdict::Wide => ": content over what the table's length field holds",
        Verdict::Heavy => ": the payload would have over 1400 bytes",
    }
}
