// Calls of the system that failed, as text.

use arrayvec::ArrayString;
use std::fmt;
use std::fmt::Write;
use std::io::Error;

// The most bytes of an error as text. The system's reasons are far shorter; what there is no room for is lost.
const ROOM: usize = 256;

// The system's error for a descriptor that is not open.
pub(crate) fn not_open() -> Error {
    Error::from_raw_os_error(9)
}

// The system's error for a name that is no text.
pub(crate) fn no_text() -> Error {
    Error::from_raw_os_error(84)
}

// Why a call failed, without the system's number, which stands behind the reason.
#[derive(Clone, Copy)]
pub struct Reason<'a>(pub &'a Error);

impl fmt::Display for Reason<'_> {
    fn fmt<W: fmt::Write>(&self, f: &mut fmt::Formatter<W>) -> fmt::Result {
        let mut text = ArrayString::<ROOM>::new();
        let _ = write!(text, "{}", self.0);
        let all = text.as_str();
        let reason = all
            .split_once(" (os error ")
            .map_or(all, |(reason, _)| reason);
        f.write_str(reason)
    }
}
