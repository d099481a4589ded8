// What the programs share: what was read of standard input and what was written to standard output; and, of those that answer lines,
// the lines of the input, however the reads cut them, and the answers, kept until there is no room for one more.
#![tactic(auto)]

mod block;
mod calls;
mod input;
mod output;
mod sink;
mod source;

pub use input::{Input, no_input, read_line};
pub use output::{Output, Run, make_room, next_line, no_output, write_end};
pub use sink::{Sink, is_closed, unwritten, write_text};
pub use source::{Source, filled, is_failed, is_over, read_more, unread};
