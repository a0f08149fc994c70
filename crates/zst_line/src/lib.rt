//! The words of a command line: the line that they say, or the place of the first word that can't stand where it is.
#![tactic(auto)]

mod commands;
mod kind;
mod kind_lines;
mod laws;
mod line;
mod name_kinds;
mod options;
mod parser;
mod places;
mod streams;
mod table;
mod text;
mod tools;
mod word_slot;
mod word_values;

pub use laws::line_has_one_answer;
pub use line::{Line, LineFault};
pub use parser::parse;
pub use text::Text;
