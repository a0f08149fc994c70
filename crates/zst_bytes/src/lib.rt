//! Little-endian numbers at places of a text of bytes, padding to 8 bytes, numbers in decimal, and
//! words and texts one after the other.
#![tactic(auto)]

mod cursor;
mod fields;
mod padding;
mod text;
mod words;

pub use cursor::Cursor;
pub use fields::{le8, le32, le64, put_bytes, put8, put32, put64};
pub use padding::pad8;
pub use text::decimal;
pub use words::{fill_up, push_text, push_word, push_words};
