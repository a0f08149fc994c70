//! The events of a script, the lines that say them, and the reading of these lines.
#![tactic(auto)]

mod asks;
mod event;
mod event_parser;
mod laws;
mod line_room;
mod pool_lines;
mod script_lines;
mod session_lines;
mod words;

pub use asks::{ask_of, receipt_of};
pub use event::{Event, Side};
pub use event_parser::event_of;
pub use laws::{lines_say_events, lines_say_one_event, read_lines_are_scripts, scripts_go_on};
pub use script_lines::{NextLine, ScriptLines};

/// The most bytes of a line that says an event: the longest writes 1,048,576 bytes in hexadecimal.
pub const LONGEST_LINE: usize = (1 << 21) + 4096;

/// The most bytes that a script may have.
pub const SCRIPT_LIMIT: u64 = 1 << 24;
