//! Calls of the library that allocate memory, and what each leaves if it is refused. `tools/faults/library.py` runs this program
//! with memory refused. Its one word says which call to make: `store`, `play`, `setup`, `source`, `check` or `solve`. For each call
//! for which memory was refused, it writes whether the object is as it was, and calls once more. At the end it writes the outcome
//! of all calls. If memory is refused before the first of them, it writes `not begun`.
#![tactic(auto)]

mod claims;
mod problem;
mod records;
mod refusal;
mod tables;

use claims::{checked, lines, solved};
use records::changed;
use refusal::not_begun;
use std::convert::AsStr;
use std::{env, io};
use tables::stored;

fn main(rt: HostRuntime) -> io::Result<()> {
    let Ok(words) = env::args(&rt) else {
        return not_begun(&rt);
    };
    let Ok(words) = words.collect::<Vec<String>>(rt.alloc()) else {
        return not_begun(&rt);
    };
    match words.get(1) {
        Some(word) if word.as_str() == "store" => stored(&rt),
        Some(word) if word.as_str() == "play" => changed(&rt, false),
        Some(word) if word.as_str() == "setup" => changed(&rt, true),
        Some(word) if word.as_str() == "source" => lines(&rt),
        Some(word) if word.as_str() == "check" => checked(&rt),
        Some(word) if word.as_str() == "solve" => solved(&rt),
        _ => println!(rt; "store, play, setup, source, check or solve"),
    }
}
