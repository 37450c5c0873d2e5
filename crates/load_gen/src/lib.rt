// The load that the program tries itself with: what is done, act by act, the joins over it, and the line that tells what stands
// in the end, which is the same however many workers share the load.
//
// The layers above may use `plan`, `load_joins` and `Act`, and cite the definitions and the laws of `laws` and `shared_laws`.
#![tactic(auto)]

pub mod acts;
pub mod joins;
mod keys;
pub mod laws;
pub mod shared_laws;

pub use acts::{Act, plan};
pub use joins::load_joins;
