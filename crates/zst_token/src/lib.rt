//! The text that names the place where a cut receive goes on (`receive_resume_token` of
//! zfsprops(7), and `-t` of zfs-send(8)).
#![tactic(auto)]

mod digits;
mod fault;
mod fields;
mod parser;
mod token;

pub use fault::TokenFault;
pub use token::Token;
