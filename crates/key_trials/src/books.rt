// Books of ids by their last use: those that were not used for the longest go first, until the others weigh no more than the
// limit. An id weighs its rows and one more.
ghost use Rattle.std.specs.Prelude.{◌≡◌};

use evict_book::EvictBook;
use std::alloc::Global;
use test_rows::{Answer, Fields};

/// A book, and the number below which its ids are.
#[derive(Drop)]
struct Book {
    cells: u32,
    book: EvictBook,
    ghost ids: { book.cells ≡ cells },
}

/// Answers `book;CELLS;LIMIT;CALL;..`, calls on one book in turn.
pub fn answer(alloc: Global, mut fields: Fields<'_>, out: &mut Answer) -> Option<()> {
    let cells = fields.id();
    let mut book = Book::new(alloc, cells, fields.number())?;
    for call in fields.rest().split(';') {
        answer_call(&mut book, call, out)?;
    }
    Some(())
}

/// Answers one call.
fn answer_call(book: &mut Book, call: &str, out: &mut Answer) -> Option<()> {
    let mut words = Fields::words(call);
    let name = words.next();
    let id = words.id();
    match name {
        "touch" => {
            let victims = book.touch(id, words.number())?;
            out.ids(victims.as_slice());
            Some(())
        }
        "gone" => book.gone(id),
        _ => None,
    }
}

impl Book {
    /// No ids.
    fn new(alloc: Global, cells: u32, limit: u64) -> Option<Book> {
        if cells == 0 || limit == 0 {
            return None;
        }
        match EvictBook::new(alloc, cells, limit) {
            Ok(book) => Some(Book { cells, book }),
            Err(_) => None,
        }
    }

    /// Does `touch ID ROWS`: makes an id the most recently used, and returns the ids that have to go.
    fn touch(&mut self, id: u32, rows: u64) -> Option<Vec<u32>> {
        if id >= self.cells {
            return None;
        }
        match self.book.touch(id, rows) {
            Ok(victims) => Some(victims),
            Err(_) => None,
        }
    }

    /// Does `gone ID`.
    fn gone(&mut self, id: u32) -> Option<()> {
        if id >= self.cells {
            return None;
        }
        self.book.gone(id);
        Some(())
    }
}
