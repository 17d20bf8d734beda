// The forms of an archive: what the form number settles, and what is the same in each.

ghost use Rattle.std.specs.Prelude.{◌≡◌};
ghost use Rattle.archive.specs.Form.{form_number, offset_width, entry_size, limit};

// A form that is read and written.
#[derive(Clone, Copy)]
pub enum Form {
    One,
}

// The bytes of a record's length.
pub const LENGTH_LEN: usize = 2;

// The bytes of the trailer, and where its fields stand in it.
pub const TRAILER_LEN: usize = 8;

pub const ENTRIES_AT: usize = 4;

pub const FORM_AT: usize = 6;

#[tactic(auto, using(crate::proofs::FormLaws::one_form))]
impl Form {
    // The form number in the trailer.
    pub fn number(self) -> u64
        ensures { result ≡ form_number self }
    {
        match self {
            Form::One => 1,
        }
    }

    // The bytes of a record's offset in an index entry.
    pub fn offset_width(self) -> usize
        ensures { result ≡ offset_width self }
    {
        match self {
            Form::One => 2,
        }
    }

    // The bytes of an index entry: the offset and the Session ID.
    pub fn entry_size(self) -> usize
        ensures { result ≡ entry_size self }
    {
        match self {
            Form::One => 4,
        }
    }

    // The most bytes of a file.
    pub fn limit(self) -> usize
        ensures { result ≡ limit self }
    {
        match self {
            Form::One => 65535,
        }
    }
}
