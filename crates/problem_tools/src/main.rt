//! problem_tools: takes the games of a file apart, marks the problem of a record, draws it, and makes a page of its answer.
#![tactic(auto)]

use record_tools::{read_request, run};
use std::process::ExitCode;
use tool_parts::exit_code;

fn main(rt: HostRuntime) -> ExitCode {
    let alloc = rt.alloc();
    let code = exit_code(
        &rt,
        rt.stdin(),
        rt.stdout(),
        rt.stderr(),
        |words, reader, writer, notes| run(
            alloc,
            &rt,
            read_request(alloc, words),
            reader,
            writer,
            notes,
        ),
    );
    ExitCode::from(code)
}
