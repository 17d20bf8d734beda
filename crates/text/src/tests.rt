// What no clause says: that what is there is read, and what is printed. Expected values are worked out by hand.

use crate::argument::Arguments;
use crate::decimal::{DecimalError, Shortest};
use crate::file::Inputs;
use crate::input::InputError;
use crate::quote::QuoteError;
use crate::say::OrNone;
use crate::word::Words;
use crate::{decimal, input, quote};
use std::env::FillError;
use std::io;
use std::io::Read;
use std::rt::Env;
use std::test::Fail;

#[test]
fn reads_whole_inputs_alone(rt: HostRuntime) -> Result<(), Fail> {
    let mut room = [0; 4];
    let whole = input::read_whole_into(b"abc".as_slice(), &mut room)?;
    assert_eq!(rt; whole, b"abc".as_slice());
    let start = input::read_start_into(b"abc".as_slice(), &mut room[..2])?;
    assert_eq!(rt; start, b"ab".as_slice());
    assert!(rt;
        matches!(
            input::read_whole_into(b"abc".as_slice(), &mut room[..3]),
            Err(InputError::TooLong)
        )
    );
    Ok(())
}

// Gives two bytes, and then fails.
#[derive(Drop)]
struct Broken {
    is_begun: bool,
}

impl Read for Broken {
    fn read(&mut self, buf: &mut [u8]) -> io::Result<usize> {
        if self.is_begun || buf.len() < 2 {
            return Err(io::Error::from_raw_os_error(5));
        }
        self.is_begun = true;
        Ok(2)
    }
}

#[test]
fn tells_a_reading_that_fails(rt: HostRuntime) {
    let source = Broken { is_begun: false };
    match input::read_whole_into(source, &mut [0; 10]) {
        Err(InputError::Unread(why)) => assert_eq!(rt; why.raw_os_error(), Some(5)),
        _ => assert!(rt; false),
    }
}

#[test]
fn reads_files_and_standard_input_once(rt: HostRuntime) -> Result<(), Fail> {
    let mut inputs = Inputs::new(&rt);
    let mut room = [0; 5];
    assert_eq!(rt;
        inputs.read_whole_into(b"/dev/null", &mut room[..1])?.len(),
        0
    );
    assert_eq!(rt; inputs.read_start_into(b"/dev/zero", &mut room)?.len(), 5);
    let _ = inputs.read_start_into(b"-", &mut []);
    match inputs.read_start_into(b"-", &mut []) {
        Err(why) => assert_eq!(rt; why.raw_os_error(), Some(9)),
        Ok(_) => assert!(rt; false),
    }
    Ok(())
}

#[test]
fn reads_inputs_into_vectors(rt: HostRuntime) -> Result<(), Fail> {
    let whole = input::read_whole(rt.alloc(), b"abc".as_slice(), 3)?;
    assert_eq!(rt; whole.as_slice(), b"abc".as_slice());
    let start = input::read_start(rt.alloc(), b"abc".as_slice(), 2)?;
    assert_eq!(rt; start.as_slice(), b"ab".as_slice());
    assert!(rt;
        matches!(
            input::read_whole(rt.alloc(), b"abc".as_slice(), 2),
            Err(InputError::TooLong)
        )
    );
    let source = Broken { is_begun: false };
    match input::read_whole(rt.alloc(), source, 9) {
        Err(InputError::Unread(why)) => assert_eq!(rt; why.raw_os_error(), Some(5)),
        _ => assert!(rt; false),
    }
    Ok(())
}

#[test]
fn reads_files_into_vectors_and_standard_input_once(rt: HostRuntime) -> Result<(), Fail> {
    let mut inputs = Inputs::new(&rt);
    assert_eq!(rt; inputs.read_whole(b"/dev/null", 0)?.len(), 0);
    assert_eq!(rt; inputs.read_start(b"/dev/zero", 5)?.len(), 5);
    let _ = inputs.read_start(b"-", 0);
    assert!(rt; matches!(inputs.read_start(b"-", 0), Err(why) if why.raw_os_error() == Some(9)));
    Ok(())
}

#[test]
fn has_the_arguments(rt: HostRuntime) {
    let arguments = Arguments::new(&rt);
    assert!(rt; arguments.get(0).is_some());
    assert!(rt; arguments.get(arguments.len()).is_none());
}

// Has three arguments: no byte, as many as there may be, and one more.
struct Three;

impl Env for Three {
    fn arg(&self, i: usize, buf: &mut [u8]) -> Result<usize, FillError> {
        let len = match i {
            0 => 0,
            1 => 4096,
            2 => 4097,
            _ => return Err(FillError::NotPresent),
        };
        if buf.len() < len {
            return Err(FillError::TooLong);
        }
        Ok(len)
    }

    fn var(&self, _name: &str, _buf: &mut [u8]) -> Result<usize, FillError> {
        Err(FillError::NotPresent)
    }

    fn var_at(&self, _i: usize, _buf: &mut [u8]) -> Result<usize, FillError> {
        Err(FillError::NotPresent)
    }
}

#[test]
fn tells_arguments_that_are_too_long(rt: HostRuntime) {
    let arguments = Arguments::new(&Three);
    assert_eq!(rt; arguments.len(), 3);
    assert_eq!(rt;
        arguments.get(0).map(|argument| argument.as_bytes().len()),
        Some(0)
    );
    assert_eq!(rt;
        arguments.get(1).map(|argument| argument.as_bytes().len()),
        Some(4096)
    );
    assert!(rt; arguments.get(2).is_none());
    assert!(rt; arguments.is_longer(2));
    assert!(rt; !arguments.is_longer(1));
    assert!(rt; !arguments.is_longer(3));
}

#[test]
fn takes_a_line_apart(rt: HostRuntime) {
    let mut words = Words::new(b" note \"a \\\" b\" c#d # e");
    assert_eq!(rt; words.next(), Some(b"note".as_slice()));
    assert_eq!(rt; words.next(), Some(b"\"a \\\" b\"".as_slice()));
    assert_eq!(rt; words.next(), Some(b"c#d".as_slice()));
    assert_eq!(rt; words.next(), None);
}

#[test]
fn reads_back_what_it_quotes(rt: HostRuntime) -> Result<(), Fail> {
    let text = b"a \"b\"\n\x01 \xC3\xA9 \xFF";
    let mut quoted = Vec::new(rt.alloc());
    quote::write(&mut quoted, text)?;
    assert_eq!(rt;
        quoted.as_slice(),
        b"\"a \\\"b\\\"\\n\\x01 \xC3\xA9 \\xFF\"".as_slice()
    );
    let mut buf = [0; 12];
    assert!(rt; quote::read(quoted.as_slice(), &mut buf).is_ok());
    assert_eq!(rt; buf.as_slice(), text.as_slice());
    assert!(rt; matches!(quote::read(b"\"x\"", &mut [0; 0]), Err(QuoteError::TooLong)));
    assert!(rt; matches!(quote::read(b"\"\\y\"", &mut buf), Err(QuoteError::Escape)));
    assert!(rt; matches!(quote::read(b"\"x", &mut buf), Err(QuoteError::Open)));
    Ok(())
}

#[test]
fn reads_and_prints_floats(rt: HostRuntime) -> Result<(), Fail> {
    assert_eq!(rt; decimal::bits::<f64>(b"0.1"), Ok(0x3FB999999999999A));
    assert_eq!(rt; decimal::bits::<f32>(b".1E0"), Ok(0x3DCCCCCD));
    assert_eq!(rt;
        decimal::bits::<f32>(b"3.40282357e38"),
        Err(DecimalError::TooLarge)
    );
    assert_eq!(rt; decimal::bits::<f64>(b"1e309"), Err(DecimalError::TooFar));
    assert_eq!(rt; decimal::bits::<f64>(b"1e"), Err(DecimalError::NotADecimal));
    let alloc = rt.alloc();
    assert_eq!(rt;
        format!(in alloc; "{}", Shortest(12500.0f64))?.as_str(),
        "12500"
    );
    assert_eq!(rt;
        format!(in alloc; "{}", Shortest(0.00001f64))?.as_str(),
        "0.00001"
    );
    assert_eq!(rt; format!(in alloc; "{}", Shortest(1.5f32))?.as_str(), "1.5");
    assert_eq!(rt;
        format!(in alloc; "{}", Shortest(1e17f64))?.as_str(),
        "1e+17"
    );
    Ok(())
}

#[test]
fn prints_a_missing_value(rt: HostRuntime) -> Result<(), Fail> {
    let alloc = rt.alloc();
    assert_eq!(rt;
        format!(in alloc; "{} {}", OrNone(Some(7u8)), OrNone::<u8>(None))?.as_str(),
        "7 none"
    );
    Ok(())
}
