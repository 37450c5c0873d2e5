// Keys, values and ranges of keys, and the decimals that values and widths are written in.
//
// The layers above may use all that is public here: contracts see a key and a value as their texts and a range as its two
// bounds, and order is byte order.
#![tactic(auto)]

pub mod decimal;
pub mod key;
pub mod key_bound;
pub mod range;
mod shared_text;
pub mod table;
pub mod value;

pub use key::{Key, KeyFault};
pub use key_bound::KeyBound;
pub use range::{Range, RangeFault};
pub use value::{Value, ValueFault};
