// Request lines in, reply lines out.
//
// The layers above cut bytes into lines with `Lines`, or a text that is there whole with `split_first_line`, read each with
// `read`, and write each reply with `write` and other rows with `write_row`; contracts speak of requests and replies by the
// definitions of `protocol`. The answer to a scan may be written while its pairs are handed out one by one, with `PairsWriter`, and
// is a reply whose line is there already. `read_entries` reads the line of a feed back into entries, at the other end of the link.
#![tactic(auto)]

pub mod batch;
pub mod entries;
pub mod fixed;
pub mod items;
pub mod line_laws;
pub mod lines;
pub mod reading;
pub mod reply;
pub mod request;
pub mod rows;
pub mod writing;
pub mod written;

pub use batch::{FeedFault, read_entries};
pub use entries::{count_fitting, far_enough, feed_reply, write_entries_line};
pub use fixed::{LONG_LINE, OkLine, long_line, memory_line, write_ok};
pub use items::{position_of, text_of};
pub use lines::{Fed, LINE_END, Lines, find_line_end, split_first_line};
pub use reading::{read, read_json, read_value};
pub use reply::Reply;
pub use request::{LineFault, Request};
pub use rows::{number_value, text_value, write_row};
pub use writing::{cause_name, write};
pub use written::{PairsWriter, WrittenPairs};
