// The text of joins: how it is read and how it is printed.
//
// The layers above may use `parse`, its fault, and `print`; the laws say that what is printed is read back.
#![tactic(auto)]

mod cut;
pub mod fault;
pub mod laws;
mod names;
pub mod parser;
mod patterns;
pub mod printer;
mod slots;
mod tokens;

pub use fault::ParseFault;
pub use parser::parse;
pub use printer::print;
