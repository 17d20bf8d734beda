// A row's value as text, behind the row's name or number. A line of show has it too, with the words that show puts before a value.

use super::content::Content;
use super::kind::{Form, Kind, Scalar};
use super::value_fault::{ContentFault, ValueFault};
use super::{line, number};
use payload::row::{Row, Value};
use text::number as text_number;
use text::quote::QuoteError;
use text::word::Words;

// The words that show puts before a number.
const LEADS: [&str; 5] = ["unsigned", "signed", "float32", "float64", "bits"];

// The number of a kind, behind a word that show may have put before it. Behind a float's value may stand its bits, which then decide.
fn read_number<'a>(kind: Scalar, words: Words<'a>) -> Result<Row, ValueFault<'a>> {
    let mut words = without_lead(words);
    let mut word = line::next_word(&mut words);
    if let Form::Float(_) = kind.form() {
        let mut behind = words;
        let bits = line::next_word(&mut behind);
        if text_number::is_hexadecimal(bits) {
            word = bits;
            words = behind;
        }
    }
    line::ends(words)?;
    Ok(number::read(word, kind)?.row())
}

// The words without one that show puts before a number.
fn without_lead(words: Words<'_>) -> Words<'_> {
    let mut behind = words;
    if line::is_one_of(&LEADS, line::next_word(&mut behind)) {
        return behind;
    }
    words
}

// The words without those that show puts before a run of bytes: bytes, its place and its length.
fn without_place(words: Words<'_>) -> Words<'_> {
    let mut behind = words;
    if line::next_word(&mut behind).eq_ignore_ascii_case(b"bytes") {
        let _ = behind.next();
        let _ = behind.next();
        return behind;
    }
    words
}

// What is wrong with a quotation.
fn quote_fault(fault: QuoteError, word: &[u8]) -> ValueFault<'_> {
    ValueFault::Content(match fault {
        QuoteError::Open => ContentFault::Open(word),
        QuoteError::Escape => ContentFault::NoEscape(word),
        QuoteError::TooLong => ContentFault::LongText(word),
    })
}

// A text, put behind the content.
fn read_text<'a>(content: &mut Content, words: Words<'a>) -> Result<Row, ValueFault<'a>> {
    let mut words = without_place(words);
    let word = line::next_word(&mut words);
    if word.first() != Some(&b'"') {
        return Err(ValueFault::Content(ContentFault::NoText(word)));
    }
    line::ends(words)?;
    let place = content.len();
    content
        .push_text(word)
        .map_err(|fault| quote_fault(fault, word))?;
    Ok(content.run(place))
}

// An array's elements, put behind the content.
fn read_array<'a>(
    content: &mut Content,
    element: Scalar,
    words: Words<'a>,
) -> Result<Row, ValueFault<'a>> {
    let place = content.len();
    for word in without_place(words) {
        let bytes = number::read(word, element)?.bits().to_be_bytes();
        content
            .push(&bytes[8 - element.size()..])
            .ok_or(ValueFault::Content(ContentFault::LongArray))?;
    }
    Ok(content.run(place))
}

// A present struct.
fn read_struct(words: Words<'_>) -> Result<Row, ValueFault<'_>> {
    let word = line::last_word(words)?;
    if !line::is_one_of(&["members", "present"], word) {
        return Err(ValueFault::Content(ContentFault::NoStruct(word)));
    }
    Ok(Row::plain(Value::Members))
}

// The value of a row of a kind. Texts and arrays go behind the content.
pub fn read<'a>(
    content: &mut Content,
    kind: Kind,
    words: Words<'a>,
) -> Result<Row, ValueFault<'a>> {
    let mut behind = words;
    if line::next_word(&mut behind).eq_ignore_ascii_case(b"absent") {
        line::ends(behind)?;
        return Ok(Row::ABSENT);
    }
    match kind {
        Kind::Scalar(scalar) => read_number(scalar, words),
        Kind::Text => read_text(content, words),
        Kind::Array(element) => read_array(content, element, words),
        Kind::Struct => read_struct(words),
    }
}
