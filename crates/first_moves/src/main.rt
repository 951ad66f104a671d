//! first_moves: says of each first turn of a problem who wins after it.
#![tactic(auto)]

mod claim;
mod found;
mod grade;
mod graded;
mod json;
mod judged;
mod line;
mod line_record;
mod line_solution;
mod list;
mod names;
mod program;
mod reading;
mod record;
mod replies;
mod threat;
mod variation;
mod words;

use program::run;
use std::process::ExitCode;
use tool_parts::exit_code;
use words::read_request;

fn main(rt: HostRuntime) -> ExitCode {
    let alloc = rt.alloc();
    let code = exit_code(
        &rt,
        rt.stdin(),
        rt.stdout(),
        rt.stderr(),
        |words, reader, writer, notes| run(
            alloc,
            read_request(alloc, words),
            reader,
            writer,
            notes,
        ),
    );
    ExitCode::from(code)
}
