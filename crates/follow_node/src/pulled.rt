// How a pull ends.
use out_of_memory::OutOfMemory;

/// How a pull ends.
#[derive(Debug, Drop, PartialEq, Eq)]
pub enum Pulled {
    /// The replica has at least the entries that the home had at the pull's first line.
    Level,
    /// The home found no memory for its answer.
    HomeMemory,
    /// The home keeps no entries that lie so far back: so many it has.
    Gone(u64),
    /// The home has fewer entries: so many.
    Ahead(u64),
    /// A line was none that this home may answer.
    Bad,
    /// The home's link ended.
    Ended,
    /// An earlier pull ended the feeder.
    Over,
    /// A read of the home's link failed.
    ReadFault,
    /// A write to the home's link failed.
    WriteFault,
    /// No memory was found. The writes taken so far stay, and a later pull goes on with the line.
    OutOfMemory(OutOfMemory),
}
