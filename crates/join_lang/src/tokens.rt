// The tokens of a join's text: the longest runs of bytes other than the space.
ghost use Rattle.std.specs.Prelude.{◌≡◌, ℕ, ◌+◌, ◌-◌, ◌≤◌, [], ◌∷◌, length, MatchOption, IfSome, IfNone};
ghost use Rattle.protocol.specs.JoinText.{tokens};
ghost use Rattle.join_lang.specs.Readings.{tokens_from, with_word};
ghost use Rattle.join_lang.specs.Words.{plain_word};

use crate::cut::cut_at;
use std::marker::Model;

/// The most bytes of a join's text.
pub const MAX_TEXT_BYTES: usize = 4096;

/// A token: the offset of its first byte, and its text.
#[derive(Clone, Copy)]
pub struct Word<'a> {
    pub at: usize,
    pub text: &'a str,
}

/// A token, and what is left of the text, which begins at an offset.
#[derive(Clone, Copy)]
struct Taken<'a> {
    word: Word<'a>,
    rest: &'a str,
    at: usize,
}

/// The tokens of a text that are still to be read.
#[derive(Drop)]
pub struct Tokens<'a> {
    rest: &'a str,
    at: usize,
}

impl<'a> Model for Tokens<'a> {
    ghost use Rattle.std.specs.Prelude.{List, ◌+◌, ◌≤◌, length};
    ghost use Rattle.protocol.specs.JoinText.{Token};
    ghost use Rattle.join_lang.specs.Readings.{tokens_from};

    ghost Value = { List Token };

    ghost view = { λ t. tokens_from t.at t.rest.now };

    ghost invariant = { λ t. t.at + length t.rest.now ≤ 4096 };
}

impl<'a> Tokens<'a> {
    /// The tokens of a text of at most 4,096 bytes.
    pub fn of(text: &'a str) -> Tokens<'a>
        requires { length text.now ≤ 4096 }
        ensures { result ≡ tokens text.now }
    {
        Tokens { rest: text, at: 0 }
    }

    /// Takes the next token, if there is one. Linear in the bytes up to its end.
    pub fn next(&mut self) -> Option<Word<'a>>
        ensures { MatchOption result ((self.old ≡ []) × (self.new ≡ [])) (λ word. self.old ≡ plain_word word ∷ self.new) }
    {
        match take_word(self.rest, self.at) {
            Some(taken) => {
                self.rest = taken.rest;
                self.at = taken.at;
                Some(taken.word)
            }
            None => None,
        }
    }
}

/// What stands before the first space, and what is left behind it.
fn take_piece(text: &str) -> (&str, &str)
    ensures piece { (at : ℕ) → tokens_from at text.now ≡ with_word at result.0.now (tokens_from (at + (length text.now - length result.1.now)) result.1.now) }
    ensures shorter { length result.1.now ≤ length text.now - 1 }
{
    let (first, later) = cut_at(text, ' ');
    match later {
        Some(rest) => (first, rest),
        None => (first, ""),
    }
}

/// The next token of a text that begins at an offset, and what is left behind it.
fn take_word<'a>(text: &'a str, at: usize) -> Option<Taken<'a>>
    requires { at + length text.now ≤ 4096 }
    ensures none { IfNone result (tokens_from at text.now ≡ []) }
    ensures some { IfSome result (λ t. tokens_from at text.now ≡ plain_word t.word ∷ tokens_from t.at t.rest.now) }
    ensures within { IfSome result (λ t. t.at + length t.rest.now ≤ 4096) }
{
    let mut rest = text;
    let mut offset = at;
    while !rest.is_empty() {
        let (piece, later) = take_piece(rest);
        let word = Word {
            at: offset,
            text: piece,
        };
        offset += rest.len() - later.len();
        rest = later;
        if !piece.is_empty() {
            return Some(Taken {
                word,
                rest,
                at: offset,
            });
        }
    }
    None
}
