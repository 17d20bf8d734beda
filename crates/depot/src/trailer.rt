// What the trailer of a file says.

ghost use Rattle.std.specs.Prelude.{◌≡◌, ◌<◌};

use super::layout;
use archive::form;

// Where the trailer starts, and what it says: the index's offset, which is the records' size, the number of entries, the form number.
#[derive(Clone, Copy)]
pub struct Trailer {
    pub at: usize,
    pub size: usize,
    pub entries: usize,
    pub form: usize,
    ghost narrow: { size < 4294967296 },
    ghost few: { entries < 65536 },
}

impl Trailer {
    ghost use Rattle.archive.specs.Opening.{trailer_at};
    ghost use Rattle.depot.specs.Trailer.{TrailerOf};

    // Where the trailer of a file starts: 0 in a file that is shorter.
    fn start(file: &[u8]) -> usize
        ensures { result ≡ trailer_at file.now }
    {
        file.len().saturating_sub(form::TRAILER_LEN)
    }

    // The trailer of a file that has one.
    pub fn of(file: &[u8]) -> Trailer
        ensures { TrailerOf file.now result }
    {
        let at = Trailer::start(file);
        Trailer {
            at,
            size: layout::four_at(file, at),
            entries: layout::two_at(file, at + form::ENTRIES_AT),
            form: layout::two_at(file, at + form::FORM_AT),
        }
    }

    // Where the index ends, by what the trailer says.
    pub fn index_end(self) -> usize {
        self.size + layout::index_size(self.entries)
    }
}
