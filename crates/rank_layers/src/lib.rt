// A reader of one rank more: it stands on a reader of the ranks below, and on a cache of ranges of its joins' outputs.
//
// What it does is written once, over `RangeCache`: `above` reads and says what changed, over `outputs` and `telling`, and
// `valuing` says it with what stands there. The cache is `OwnCells`, the cells of the lowest reader, or cells that threads share,
// which the layers above give. They may also use `RankReader`, which borrows a lowest reader over cells and reads up to a rank. A
// rank is a type, `Lowest` or a `Layer` over another rank; eight layers, `AllRanks`, read joins of all ranks.
#![tactic(auto)]

pub mod above;
pub mod keys;
pub mod layer;
pub mod outputs;
pub mod own_cells;
pub mod part;
pub mod query;
pub mod range_cache;
pub mod rank;
pub mod rank_reader;
pub mod telling;
pub mod valuing;

pub use layer::AllRanks;
pub use own_cells::OwnCells;
pub use query::Query;
pub use range_cache::RangeCache;
pub use rank::Rank;
pub use rank_reader::RankReader;
