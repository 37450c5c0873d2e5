// Cells that keep ranges of the outputs of joins, which threads share: each behind a lock of its own, with a directory of their
// places and the order of their last use behind two more; and a reader of one rank more, which stands on a reader of the ranks
// below, and keeps ranges of its joins' outputs in these cells. What a layer does is in `rank_layers`; here are the cells as
// its cache.
//
// The layers above may use `SharedCells`, whose calls may wait for a lock, the `RankedJoin` that it is asked for, and the
// `Part`s that it gives; `RankReader`, which borrows a lowest reader and reads up to a rank, and `hand_range`, which hands out
// what one cell has. What is done under a lock is stated at `Cell` and at `Directory`, on the functions that are lent the
// locked value. A call that takes the lock states what holds of its answer, whatever others do before and after it.
//
// A rank is a type, `Lowest` or a `Layer` over another rank; eight layers, `AllRanks`, read joins of all ranks. Whoever reads
// may wait for cells: a layer takes the lock of a cell of its own rank, and under it those of cells of lower ranks. A cell
// never changes its join or rank. Otherwise a thread that found it earlier could wait for a lock of a higher rank than it may
// take, and two threads could deadlock.
#![tactic(auto)]

mod advancing;
mod book;
pub mod cache;
pub mod cell;
mod directory;
mod followed;
mod handing;
mod idle;
pub mod layer;
mod listing;
mod listings;
pub mod part;
pub mod range_handing;
pub mod rank;
pub mod rank_reader;
pub mod ranked_join;
pub mod room;
mod spots;
pub mod store;
mod uses;

pub use cell::Cell;
pub use directory::Part;
pub use layer::AllRanks;
pub use range_handing::hand_range;
pub use rank::Rank;
pub use rank_reader::RankReader;
pub use ranked_join::RankedJoin;
pub use room::Room;
pub use spots::SharedCell;
pub use store::SharedCells;
