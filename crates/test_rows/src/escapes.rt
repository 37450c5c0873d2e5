// Texts that a line of a table cannot hold as they are: characters that end lines and fields, and texts too long to read.
use std::alloc::{AllocError, Global};

/// What the characters before say of the next one.
#[derive(Clone, Copy)]
enum Place {
    /// It stands for itself.
    Plain,
    /// It comes after a backslash.
    Escaped,
    /// It comes after `\(` and this number, up to the `)`.
    Repeated(u32),
    /// It comes after `\x`.
    Coded,
    /// It comes after `\x` and this hexadecimal digit.
    HalfCoded(u32),
}

/// How often a character is written, and what is said of the next one.
#[derive(Drop)]
struct Written {
    letter: char,
    times: u32,
    place: Place,
}

/// Returns the character that a letter after a backslash stands for.
fn meaning(letter: char) -> char {
    match letter {
        't' => '\t',
        'n' => '\n',
        'r' => '\r',
        '0' => '\0',
        's' => ';',
        other => other,
    }
}

/// Returns the hexadecimal digit that the letter is, or 0 where it is none.
fn digit_of(letter: char) -> u32 {
    letter.to_digit(16).unwrap_or(0)
}

/// Returns the character whose number has these hexadecimal digits.
fn letter_of(high: u32, low: u32) -> char {
    char::from_u32(high.saturating_mul(16).saturating_add(low)).unwrap_or('\0')
}

impl Place {
    /// Returns what the character at this place writes.
    fn write(self, letter: char) -> Written {
        let (letter, times, place) = match self {
            Place::Plain if letter == '\\' => (letter, 0, Place::Escaped),
            Place::Plain => (letter, 1, Place::Plain),
            Place::Escaped if letter == '(' => (letter, 0, Place::Repeated(0)),
            Place::Escaped if letter == 'x' => (letter, 0, Place::Coded),
            Place::Escaped => (meaning(letter), 1, Place::Plain),
            Place::Coded => (letter, 0, Place::HalfCoded(digit_of(letter))),
            Place::HalfCoded(high) => (letter_of(high, digit_of(letter)), 1, Place::Plain),
            Place::Repeated(_) if letter == ')' => (letter, 0, Place::Plain),
            Place::Repeated(count) => match letter.to_digit(10) {
                Some(digit) => {
                    let count = count.saturating_mul(10).saturating_add(digit);
                    (letter, 0, Place::Repeated(count))
                }
                None => (letter, count, Place::Repeated(count)),
            },
        };
        Written {
            letter,
            times,
            place,
        }
    }
}

/// Writes the character so many times at the end of the text.
fn push_times(text: &mut String, letter: char, times: u32) -> Result<(), AllocError> {
    for _ in 0..times {
        text.push(letter)?;
    }
    Ok(())
}

/// Returns the text that a field writes: `\t`, `\n`, `\r`, `\0` (the character 0), `\\`, `\s` (a semicolon), `\x1f` (the character of
/// this hexadecimal number of two digits) and `\(65a)` (65 times the character a). It is made on `alloc`, in time linear in it.
pub fn unescape(alloc: Global, field: &str) -> Result<String, AllocError> {
    let mut text = String::new(alloc);
    let mut place = Place::Plain;
    for letter in field.chars() {
        let written = place.write(letter);
        push_times(&mut text, written.letter, written.times)?;
        place = written.place;
    }
    Ok(text)
}

/// A letter that follows itself so often is written with its count.
const LONG_RUN: u32 = 16;

/// Writes a character at the end of the text as a row writes it.
fn push_escape(text: &mut String, letter: char) -> Result<(), AllocError> {
    match letter {
        '\t' => text.push_str("\\t"),
        '\n' => text.push_str("\\n"),
        '\r' => text.push_str("\\r"),
        '\0' => text.push_str("\\0"),
        '\\' => text.push_str("\\\\"),
        other if other.is_ascii_control() => write!(text, "\\x{:02x}", u32::from(other)),
        other => text.push(other),
    }
}

/// Writes the character so many times at the end of the text as a row writes it.
fn push_run(text: &mut String, letter: char, times: u32) -> Result<(), AllocError> {
    if times >= LONG_RUN && letter.is_ascii_alphabetic() {
        return write!(text, "\\({times}{letter})");
    }
    for _ in 0..times {
        push_escape(text, letter)?;
    }
    Ok(())
}

/// Returns how a row writes the text, so that `unescape` reads it again; a `;` stands for itself. It is made on `alloc`, in time
/// linear in the text.
pub fn escape(alloc: Global, text: &str) -> Result<String, AllocError> {
    let mut escaped = String::new(alloc);
    let mut last = ' ';
    let mut times = 0u32;
    for letter in text.chars() {
        if letter != last {
            push_run(&mut escaped, last, times)?;
            times = 0;
        }
        last = letter;
        times = times.saturating_add(1);
    }
    push_run(&mut escaped, last, times)?;
    Ok(escaped)
}
