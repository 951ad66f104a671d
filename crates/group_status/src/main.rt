//! group_status: says whether a group is alive, dead or unsettled, and on what suppositions.
#![tactic(auto)]

mod all_groups;
mod answer;
mod answer_lines;
mod answer_record;
mod asked;
mod asker;
mod board_record;
mod claims;
mod condition;
mod first_procedure;
mod group;
mod group_line;
mod json;
mod lines;
mod move_proof;
mod names;
mod past;
mod program;
mod progress;
mod proof;
mod proof_json;
mod question_lines;
mod reasons;
mod score;
mod second_procedure;
mod solutions;
mod table;
mod totals;
mod variation;
mod verdict;

use program::run;
use std::process::ExitCode;
use tool_parts::exit_code;

fn main(rt: HostRuntime) -> ExitCode {
    let alloc = rt.alloc();
    let code = exit_code(
        &rt,
        rt.stdin(),
        rt.stdout(),
        rt.stderr(),
        |words, reader, writer, notes| run(alloc, words, reader, writer, notes),
    );
    ExitCode::from(code)
}
