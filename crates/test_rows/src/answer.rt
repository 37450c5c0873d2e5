// The answer to a row.
use crate::escapes::escape;
use std::alloc::Global;

/// The answer to a row of a table of tests: words with a space between them.
#[derive(Drop)]
pub struct Answer {
    alloc: Global,
    text: String,
}

impl Answer {
    /// Returns an answer without a word.
    pub fn new(alloc: Global) -> Answer {
        Answer {
            alloc,
            text: String::new(alloc),
        }
    }

    /// Adds text to the last word.
    pub fn more(&mut self, text: &str) {
        let _ = self.text.push_str(text);
    }

    /// Adds a word.
    pub fn word(&mut self, word: &str) {
        if !self.text.is_empty() {
            self.more(" ");
        }
        self.more(word);
    }

    /// Adds text to the last word as a row writes it, so that `unescape` reads it again.
    pub fn more_escaped(&mut self, text: &str) {
        if let Ok(escaped) = escape(self.alloc, text) {
            self.more(escaped.as_str());
        }
    }

    /// Adds a word as a row writes it, so that `unescape` reads it again.
    pub fn escaped(&mut self, word: &str) {
        self.word("");
        self.more_escaped(word);
    }

    /// Adds a decimal number to the last word.
    pub fn more_number(&mut self, number: u64) {
        let _ = write!(&mut self.text, "{number}");
    }

    /// Adds a decimal number as a word.
    pub fn number(&mut self, number: u64) {
        self.word("");
        self.more_number(number);
    }

    /// Adds the word `true` or `false`.
    pub fn flag(&mut self, flag: bool) {
        self.word(if flag { "true" } else { "false" });
    }

    /// Adds two bounds as a word, as `low..high`.
    pub fn bounds(&mut self, low: &str, high: &str) {
        self.escaped(low);
        self.more("..");
        self.more_escaped(high);
    }

    /// Adds ids as a word, with a comma between them, or the word `-` where there are none.
    pub fn ids(&mut self, ids: &[u32]) {
        if ids.is_empty() {
            self.word("-");
        }
        for (place, id) in ids.iter().enumerate() {
            if place == 0 {
                self.word("");
            } else {
                self.more(",");
            }
            self.more_number(u64::from(*id));
        }
    }

    /// Returns the words.
    pub fn text(&self) -> &str {
        self.text.as_str()
    }
}
