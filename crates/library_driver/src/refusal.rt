//! What is written if memory was refused.

use std::io;

pub fn say_refused(rt: &impl Print, is_same: bool) -> io::Result<()> {
    let state = if is_same { "unchanged" } else { "changed" };
    println!(rt; "refused, {state}")
}

pub fn not_begun(rt: &impl Print) -> io::Result<()> {
    println!(rt; "not begun")
}
