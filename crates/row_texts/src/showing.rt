// Answers as a row shows them, each with a `;` behind it.
use join_rows::Table;
use join_types::Pair;
use key_space::{Key, Value};
use std::alloc::{AllocError, Global};

/// Writes a word and ends the answer.
pub fn show_word(text: &mut String, word: &str) -> Result<(), AllocError> {
    text.push(' ')?;
    text.push_str(word)?;
    text.push(';')
}

/// Writes a number and ends the answer.
pub fn show_number(alloc: Global, text: &mut String, number: u64) -> Result<(), AllocError> {
    let digits = format!(in alloc; "{number}")?;
    show_word(text, digits.as_str())
}

/// Writes a value, or `none`, and ends the answer.
pub fn show_value(text: &mut String, value: Option<&Value>) -> Result<(), AllocError> {
    match value {
        None => show_word(text, "none"),
        Some(value) => show_word(text, value.text()),
    }
}

/// Writes a pair as ` key=value`.
fn show_pair(text: &mut String, pair: &Pair) -> Result<(), AllocError> {
    text.push(' ')?;
    text.push_str(pair.key.text())?;
    text.push('=')?;
    text.push_str(pair.value.text())
}

/// Writes the pairs and ends the answer.
pub fn show_pairs(text: &mut String, pairs: &[Pair]) -> Result<(), AllocError> {
    for pair in pairs {
        show_pair(text, pair)?;
    }
    text.push(';')
}

/// Writes the pairs of a table and ends the answer.
pub fn show_table(text: &mut String, table: &Table) -> Result<(), AllocError> {
    for pair in table.iter() {
        show_pair(text, pair)?;
    }
    text.push(';')
}

/// Writes the keys, each with a space before it, and ends the answer.
pub fn show_keys(text: &mut String, keys: &[Key]) -> Result<(), AllocError> {
    for key in keys {
        text.push(' ')?;
        text.push_str(key.text())?;
    }
    text.push(';')
}
