//! tsumego: solves problems of Go, decides them, and judges claims and answer trees.
#![tactic(auto)]

mod answer;
#[cfg(test)]
mod answer_tests;
#[cfg(test)]
mod counting_tests;
pub mod devices;
#[cfg(test)]
mod expect;
mod gtp;
#[cfg(test)]
mod gtp_tests;
pub mod laws;
#[cfg(test)]
mod limit_tests;
mod run;
#[cfg(test)]
mod solve_tests;
#[cfg(test)]
mod tests;

use answer::write_text;
use counted_devices::Counting;
use run::run;
use run_parts::Status;
use std::alloc::AllocError;
use std::convert::AsStr;
use std::env;
use std::io::ErrorKind;
use std::process::ExitCode;
use tsumego_replies::NO_MEMORY;

fn main(rt: HostRuntime) -> ExitCode {
    let alloc = rt.alloc();
    let mut reader = Counting::new(rt.stdin());
    let mut writer = Counting::new(rt.stdout());
    let words = match env::args(&rt) {
        Ok(words) => words.collect::<Vec<String>>(alloc),
        Err(error) if error.kind() == ErrorKind::OutOfMemory => Err(AllocError),
        Err(_) => return ExitCode::from(Status::BadWords.code()),
    };
    let status = match words {
        Ok(words) => run(alloc, words.as_slice(), &mut reader, &mut writer),
        Err(_) => write_text(&mut writer, NO_MEMORY, Status::Failed),
    };
    ExitCode::from(status.code())
}
