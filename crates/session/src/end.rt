// How serving a link ends.
use out_of_memory::OutOfMemory;

/// How serving a link ends.
#[derive(Debug, Drop, PartialEq, Eq)]
pub enum End {
    /// The link gave no more bytes, and every line was answered.
    Closed,
    /// A line `["quit"]` was answered; what follows it is not.
    Quit,
    /// A line reached 1,048,577 bytes, and that was written.
    Long,
    /// A read failed. Every line that had ended before was answered.
    ReadFault,
    /// A write failed. What was written is a beginning of the replies' texts.
    WriteFault,
    /// The link gave bytes 2^40 times, and no other end came.
    Spent,
    /// No memory was found at the start. Nothing was read or written, and the service is unchanged.
    OutOfMemory(OutOfMemory),
}
