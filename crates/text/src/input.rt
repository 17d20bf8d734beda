// An input, read to its end.

ghost use Rattle.std.specs.Prelude.{◌≡◌, ◌≤◌, ◌<◌, Err, IfErr, IfOk, IfSome, OnErr, length, take, vec_len};
ghost use Rattle.text.specs.declared.input.InputError.TheVariants.{Unread};

use std::alloc::Global;
use std::io;
use std::io::{ErrorKind, Read};

// Why there is no input: it is longer than it may be, or a read failed.
#[derive(Debug, Drop)]
pub enum InputError {
    TooLong,
    Unread(io::Error),
}

impl From<io::Error> for InputError {
    ghost from_gives = { λ why error. error ≡ Unread why };

    fn from(why: io::Error) -> InputError {
        InputError::Unread(why)
    }
}

// Fills a buffer until there is no room or the input ends, and answers how many bytes it has then. Each read is offered all the room that is
// left, since what keeps borders, as a socket can, gives a read one piece and loses what doesn't fit; one that a signal interrupts is tried again.
fn fill<S: Read>(source: &mut S, buf: &mut [u8]) -> io::Result<usize>
    ensures bound { IfOk result (λ n. n ≤ length buf.new) }
    ensures bytes { IfOk result (λ n. IfSome (S.remaining source.old) (λ all. take n buf.new ≡ take (length buf.new) all)) }
{
    let mut at = 0;
    for _ in 0..u64::MAX {
        if buf.len() <= at {
            return Ok(at);
        }
        match source.read(&mut buf[at..]) {
            Ok(0) => return Ok(at),
            Ok(n) => at += n,
            Err(why) => {
                if why.kind() != ErrorKind::Interrupted {
                    return Err(why);
                }
            }
        }
    }
    Err(io::Error::from(ErrorKind::TimedOut))
}

// The first bytes of an input, as many as a buffer has room for. What stands behind them is not read.
pub fn read_start_into<'a, S: Read + Drop>(mut source: S, buf: &'a mut [u8]) -> io::Result<&'a [u8]>
    ensures bound { IfOk result (λ start. length start.now ≤ length buf.old) }
    ensures bytes { IfOk result (λ start. IfSome (S.remaining source) (λ all. start.now ≡ take (length buf.old) all)) }
{
    let len = fill(&mut source, buf)?;
    Ok(&buf[..len])
}

// An input that may have fewer bytes than there is room for.
fn within(all: &[u8], room: usize) -> Result<&[u8], InputError>
    ensures same { IfOk result (λ whole. whole.now ≡ all.now) }
    ensures bound { IfOk result (λ whole. length whole.now < room) }
    ensures err { IfErr result (λ why. why ≡ InputError.TooLong) }
    ensures too_long { OnErr result (room ≤ length all.now) }
{
    if room <= all.len() {
        return Err(InputError::TooLong);
    }
    Ok(all)
}

// The whole of an input, which has to leave some of a buffer's room.
pub fn read_whole_into<'a, S: Read + Drop>(
    source: S,
    buf: &'a mut [u8],
) -> Result<&'a [u8], InputError>
    ensures bound { IfOk result (λ whole. length whole.now < length buf.old) }
    ensures bytes { IfOk result (λ whole. IfSome (S.remaining source) (λ all. whole.now ≡ all)) }
    ensures too_long { result ≡ Err InputError.TooLong → IfSome (S.remaining source) (λ all. length buf.old ≤ length all) }
{
    let room = buf.len();
    within(read_start_into(source, buf)?, room)
}

// The first bytes of an input, at most so many, in a vector that grows with them. What stands behind them is not read. std's reads have sizes
// of their own, so what keeps borders is for `read_start_into`.
pub fn read_start<S: Read + Drop>(alloc: Global, source: S, most: usize) -> io::Result<Vec<u8>>
    ensures bound { IfOk result (λ start. vec_len start ≤ most) }
    ensures bytes { IfOk result (λ start. IfSome (S.remaining source) (λ all. start.items ≡ take most all)) }
{
    let mut start = Vec::new(alloc);
    source.take(most as u64).read_to_end(&mut start)?;
    start.truncate(most);
    Ok(start)
}

// The whole of an input, which may have at most so many bytes, in a vector.
pub fn read_whole<S: Read + Drop>(
    alloc: Global,
    source: S,
    most: usize,
) -> Result<Vec<u8>, InputError>
    ensures bound { IfOk result (λ whole. vec_len whole ≤ most) }
    ensures bytes { IfOk result (λ whole. IfSome (S.remaining source) (λ all. whole.items ≡ all)) }
    ensures too_long { result ≡ Err InputError.TooLong → IfSome (S.remaining source) (λ all. most < length all) }
{
    let room = most.saturating_add(1);
    let whole = read_start(alloc, source, room)?;
    within(&whole, room)?;
    Ok(whole)
}
