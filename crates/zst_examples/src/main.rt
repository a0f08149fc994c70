//! Examples of `zst` as a user sees them at a terminal: each line of the input is printed with what it answers. Images and streams
//! are in memory, and each line of `zst` is one call of `run`.
#![tactic(auto)]

mod calls;
mod counts;
mod damage;
mod documents;
mod filters;
mod labels;
mod pipes;
mod places;
mod pools;
mod records;
mod remnants;
mod replays;
mod sessions;
mod trials;

use sessions::Session;
use std::io::{self, Write};

/// The line that says that a line stands nowhere in an example.
const UNREAD: &str = "(this line says nothing)\n";

fn main(rt: HostRuntime) -> io::Result<()> {
    let alloc = rt.alloc();
    let text = io::read_to_string(alloc, rt.stdin())?;
    let mut session = Session::new(alloc);
    for line in text.lines() {
        session.take(line)?;
        rt.stdout().write_all(session.told().as_bytes())?;
        session.forget();
    }
    Ok(())
}
