//! Words of the command line, and the commands that they give.

use std::alloc::Global;
use std::process::Abort;
use tsumego_version::VERSION;
use tsumego_words::{Command, NoCommand, read_command};

// The words, after the program's name, give this command.
fn gives(rt: &impl Abort, alloc: Global, words: &[&str], wanted: Command) {
    match read_command(alloc, words) {
        Ok(command) => assert_eq!(rt; command, wanted),
        Err(_) => panic!(rt; "no command"),
    }
}

// The words give no command, and the text has this part.
fn refuses(rt: &impl Abort, alloc: Global, words: &[&str], part: &str) {
    match read_command(alloc, words) {
        Err(NoCommand::Words(text)) => assert!(rt; text.as_str().contains(part)),
        _ => panic!(rt; "a command, or want of memory"),
    }
}

#[test]
fn a_subcommand_gives_the_command(rt: HostRuntime) {
    let alloc = rt.alloc();
    gives(&rt, alloc, &["tsumego", "check"], Command::Check);
    gives(&rt, alloc, &["tsumego", "audit"], Command::Audit);
    let within = |turns: u32, nodes: u64| Command::Within { turns, nodes };
    gives(
        &rt,
        alloc,
        &["tsumego", "within", "0"],
        within(0, 1_000_000),
    );
    gives(
        &rt,
        alloc,
        &["tsumego", "within", "200"],
        within(200, 1_000_000),
    );
    gives(
        &rt,
        alloc,
        &["tsumego", "within", "3", "--nodes", "0"],
        within(3, 0),
    );
    gives(
        &rt,
        alloc,
        &["tsumego", "within", "--nodes", "4294967295", "3"],
        within(3, 4_294_967_295),
    );
    gives(
        &rt,
        alloc,
        &["tsumego", "within", "+5", "--nodes=5"],
        within(5, 5),
    );
    gives(
        &rt,
        alloc,
        &["tsumego", "within", "--nodes=+7", "--", "005"],
        within(5, 7),
    );
}

#[test]
fn solve_has_two_numbers_and_two_flags(rt: HostRuntime) {
    let alloc = rt.alloc();
    let solve = |steps: u64, table: usize, proof: bool, lift: bool| Command::Solve {
        steps,
        table,
        proof,
        lift,
    };
    gives(
        &rt,
        alloc,
        &["tsumego", "solve"],
        solve(1_000_000, 100_000, false, false),
    );
    gives(
        &rt,
        alloc,
        &["tsumego", "solve", "--proof"],
        solve(1_000_000, 100_000, true, false),
    );
    gives(
        &rt,
        alloc,
        &["tsumego", "solve", "--lift", "--proof"],
        solve(1_000_000, 100_000, true, true),
    );
    gives(
        &rt,
        alloc,
        &["tsumego", "solve", "--lift"],
        solve(1_000_000, 100_000, false, true),
    );
    gives(
        &rt,
        alloc,
        &["tsumego", "solve", "--steps", "1", "--table", "2"],
        solve(1, 2, false, false),
    );
    gives(
        &rt,
        alloc,
        &[
            "tsumego",
            "solve",
            "--table=1000000",
            "--proof",
            "--steps=10000000",
        ],
        solve(10_000_000, 1_000_000, true, false),
    );
}

// The usage names the program by the first word.
#[test]
fn help_names_the_program(rt: HostRuntime) {
    let usage = "Usage: tsumego <COMMAND>";
    refuses(&rt, rt.alloc(), &["tsumego", "--help"], usage);
    refuses(&rt, rt.alloc(), &["tsumego", "help"], usage);
}

// A caller may leave out even the program's name.
#[test]
fn no_words_at_all_are_refused(rt: HostRuntime) {
    refuses(&rt, rt.alloc(), &[], "requires a subcommand");
}

#[test]
fn the_version_is_a_text_and_no_command(rt: HostRuntime) {
    refuses(&rt, rt.alloc(), &["tsumego", "-V"], VERSION);
}
