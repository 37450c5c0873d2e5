// What is beyond all memory.
use out_of_memory::OutOfMemory;
use std::alloc::Global;

/// The refusal of the allocator, which is asked for more than any memory has: for what is counted or placed by a number that such
/// memory alone could use up. It takes constant time.
pub fn refusal(alloc: Global) -> OutOfMemory {
    match Vec::<u8>::with_capacity(alloc, usize::MAX) {
        Ok(_) => unreachable!(),
        Err(refused) => OutOfMemory::from(refused),
    }
}
