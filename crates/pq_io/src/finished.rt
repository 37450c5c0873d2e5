// What is left of a link whose use has ended.
use out_of_memory::OutOfMemory;

/// A link whose use has ended. Who ends it hands over what was refused, where the link was not served for that.
#[derive(Drop)]
pub struct Finished<K> {
    /// The link, or what stands for it.
    pub link: K,
    /// What was refused when the link was last tried.
    pub refused: Option<OutOfMemory>,
}
