// The name of a table, with which every key and every bound begins.
ghost use Rattle.std.specs.Prelude.{◌≡◌};
ghost use Rattle.semantics.specs.Texts.{names_table};
ghost use Rattle.key_space.specs.Parts.{FindsTable, is_table_name};

/// The most bytes of a table's name.
pub const MAX_TABLE_BYTES: usize = 64;

/// The part of the text before its first `|`, which is borrowed; none exactly where it has no `|`. Linear in that part.
pub fn find_table(text: &str) -> Option<&str>
    ensures { FindsTable text.now result }
{
    match text.split_once('|') {
        None => None,
        Some((table, _)) => Some(table),
    }
}

/// Whether a text without `|` may name a table: it has 1 to 64 bytes.
pub fn is_table_name(table: &str) -> bool
    ensures { result ≡ is_table_name table.now }
{
    1 <= table.len() && table.len() <= MAX_TABLE_BYTES
}

/// Whether the text begins with a table's name of 1 to 64 bytes and `|`.
pub fn names_table(text: &str) -> bool
    ensures { result ≡ names_table text.now }
{
    match find_table(text) {
        None => false,
        Some(table) => is_table_name(table),
    }
}
