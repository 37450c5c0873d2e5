// The fields of a line, and the words of a field.
use crate::escapes::unescape;
use std::alloc::Global;

/// The fields of one line of a table of tests, which stand between `;`, or the words of one of them.
#[derive(Drop)]
pub struct Fields<'a> {
    separator: char,
    rest: Option<&'a str>,
}

impl<'a> Fields<'a> {
    /// Returns the fields of a line. Each line has at least one, which may be empty.
    pub fn of(line: &'a str) -> Fields<'a> {
        Fields {
            separator: ';',
            rest: Some(line),
        }
    }

    /// Returns the words of a field, which stand between spaces. Each field has at least one, which may be empty.
    pub fn words(field: &'a str) -> Fields<'a> {
        Fields {
            separator: ' ',
            rest: Some(field),
        }
    }

    /// Returns the next field as it is written, or the empty text where none is left.
    pub fn next(&mut self) -> &'a str {
        let Some(rest) = self.rest else { return "" };
        match rest.split_once(self.separator) {
            Some((field, others)) => {
                self.rest = Some(others);
                field
            }
            None => {
                self.rest = None;
                rest
            }
        }
    }

    /// Returns the next field as a decimal number, or 0 where it is none below 2^64.
    pub fn number(&mut self) -> u64 {
        self.next().parse::<u64>().unwrap_or(0)
    }

    /// Returns the next field as a decimal number, or 0 where it is none below 2^32.
    pub fn id(&mut self) -> u32 {
        self.next().parse::<u32>().unwrap_or(0)
    }

    /// Returns the text that the next field writes, as `unescape` reads it, or the empty text where no memory is left for it.
    pub fn text(&mut self, alloc: Global) -> String {
        match unescape(alloc, self.next()) {
            Ok(text) => text,
            Err(_) => String::new(alloc),
        }
    }

    /// Returns whether a field is left.
    pub fn has_more(&self) -> bool {
        self.rest.is_some()
    }

    /// Returns all fields that are left, with what separates them, and the empty text where none is left: a row of many calls
    /// goes over them by `fields.rest().split(';')`.
    pub fn rest(&self) -> &'a str {
        self.rest.unwrap_or("")
    }
}
