//! short_claims: finds and judges claims in which a group that lives by its shape is not played out.
#![tactic(auto)]

use short_proofs::run;
use std::process::ExitCode;
use tool_parts::exit_code;

fn main(rt: HostRuntime) -> ExitCode {
    let alloc = rt.alloc();
    let code = exit_code(
        &rt,
        rt.stdin(),
        rt.stdout(),
        rt.stderr(),
        |words, reader, writer, _notes| run(alloc, words, reader, writer),
    );
    ExitCode::from(code)
}
