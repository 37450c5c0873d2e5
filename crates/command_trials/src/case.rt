// What the top call is given in one case.
use std::alloc::{AllocError, Global};
use test_rows::unescape;

/// The words, the bytes of the source and of the file `j`, and the numbers of the calls that fail.
#[derive(Drop)]
pub struct Case {
    alloc: Global,
    /// The words after the program's name.
    pub words: Vec<String>,
    /// The bytes of the source and of the file `j`.
    pub given: Vec<u8>,
    /// The numbers of the reads of the source that fail, the first read being 1.
    pub reads: Vec<usize>,
    /// The numbers of the writes to the sink that fail.
    pub writes: Vec<usize>,
    /// The numbers of the takes from the shelf that fail.
    pub shelf: Vec<usize>,
    /// The numbers of the calls of the doors that fail.
    pub doors: Vec<usize>,
}

impl Case {
    /// Returns the case of these words, blanks between them, which is given nothing and in which no call fails. The word ''
    /// stands for an empty one.
    pub fn of(alloc: Global, text: &str) -> Result<Case, AllocError> {
        let mut words = Vec::new(alloc);
        for word in text.split(' ') {
            let word = if word == "''" {
                Some("")
            } else {
                Some(word).filter(|word| !word.is_empty())
            };
            if let Some(word) = word {
                words.push(unescape(alloc, word)?)?;
            }
        }
        Ok(Case {
            alloc,
            words,
            given: Vec::new(alloc),
            reads: Vec::new(alloc),
            writes: Vec::new(alloc),
            shelf: Vec::new(alloc),
            doors: Vec::new(alloc),
        })
    }

    /// Gives a text and the end of a line.
    pub fn give_line(&mut self, text: &str) -> Result<(), AllocError> {
        self.given.extend_from_slice(text.as_bytes())?;
        self.given.push(b'\n')?;
        Ok(())
    }

    /// Gives the text that the field writes.
    pub fn give_escaped(&mut self, field: &str) -> Result<(), AllocError> {
        let text = unescape(self.alloc, field)?;
        self.given.extend_from_slice(text.as_bytes())?;
        Ok(())
    }

    /// Gives the bytes of hexadecimal numbers, blanks between them; what is no number is left out.
    pub fn give_hex(&mut self, text: &str) -> Result<(), AllocError> {
        for number in text.split(' ') {
            if let Ok(byte) = u8::from_str_radix(number, 16) {
                self.given.push(byte)?;
            }
        }
        Ok(())
    }

    /// Has a call fail, as `read 2` says it.
    pub fn fail(&mut self, text: &str) -> Result<(), AllocError> {
        let (kind, number) = text.split_once(' ').unwrap_or((text, ""));
        let number = number.parse::<usize>().unwrap_or(0);
        match kind {
            "read" => self.reads.push(number)?,
            "write" => self.writes.push(number)?,
            "shelf" => self.shelf.push(number)?,
            "doors" => self.doors.push(number)?,
            _ => {}
        }
        Ok(())
    }
}
