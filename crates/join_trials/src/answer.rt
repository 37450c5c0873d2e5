// The answer to a row.
use std::alloc::Global;
use std::fmt;

/// The most bytes of a word that is printed as it is.
const LONGEST_WORD: usize = 1_000;

/// The answer to a row, to which words are added. A word for which no memory is left is left out.
#[derive(Drop)]
pub struct Answer {
    alloc: Global,
    text: String,
}

impl Answer {
    /// Returns an answer with no words.
    pub fn new(alloc: Global) -> Answer {
        Answer {
            alloc,
            text: String::new(alloc),
        }
    }

    /// Returns the arrow and the words, each behind a space; nothing where there are none.
    pub fn text(&self) -> &str {
        self.text.as_str()
    }

    /// Adds text to the last word.
    fn add(&mut self, text: &str) {
        let _ = self.text.push_str(text);
    }

    /// Adds text to the last word, in which line ends and zeros are written as `\n`, `\r` and `\0`.
    fn add_escaped(&mut self, text: &str) {
        for letter in text.chars() {
            match letter {
                '\n' => self.add("\\n"),
                '\r' => self.add("\\r"),
                '\0' => self.add("\\0"),
                _ => {
                    let _ = self.text.push(letter);
                }
            }
        }
    }

    /// Adds a word. Of a long one the number of its bytes is told, and an empty one is written as `""`.
    pub fn say(&mut self, word: &str) {
        let gap = if self.text.is_empty() { " -> " } else { " " };
        self.add(gap);
        if word.is_empty() {
            self.add("\"\"");
        } else if word.len() > LONGEST_WORD {
            let _ = write!(&mut self.text, "{} bytes", word.len());
        } else {
            self.add_escaped(word);
        }
    }

    /// Adds bytes as a word, or tells that they are no text.
    pub fn say_bytes(&mut self, bytes: &[u8]) {
        self.say(str::from_utf8(bytes).unwrap_or("no text"));
    }

    /// Adds what a value prints for those who debug it.
    pub fn show<T: fmt::Debug>(&mut self, value: &T) {
        if let Ok(text) = format!(in self.alloc; "{value:?}") {
            self.say(text.as_str());
        }
    }

    /// Adds what a value prints for its readers.
    pub fn tell<T: fmt::Display>(&mut self, value: &T) {
        if let Ok(text) = format!(in self.alloc; "{value}") {
            self.say(text.as_str());
        }
    }
}
