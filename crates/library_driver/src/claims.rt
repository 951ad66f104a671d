//! Claims held in memory: their lines, their judgement, and the search for them.

use crate::problem::{CLAIM, is_same, problem};
use crate::refusal::{not_begun, say_refused};
use cert_check::{Checked, Why, check_held};
use go_points::{Colour, Size};
use pn_search::{Budget, Cause, Verdict, solve};
use proof_cert::{Certificate, HeldSource, NodeSource, SourceFault, read_cert};
use std::alloc::Global;
use std::io;
use std::num::NonZeroUsize;
use target_game::Problem;

fn certificate(alloc: Global) -> Option<Certificate> {
    read_cert(alloc, Size::new(3)?, CLAIM).ok()
}

/// Takes all lines of the claim.
pub fn lines<R: Print + AllocGlobal>(rt: &R) -> io::Result<()> {
    let Some(certificate) = certificate(rt.alloc()) else {
        return not_begun(rt);
    };
    let mut source = HeldSource::new(rt.alloc(), &certificate);
    for _ in 0..100u32 {
        match source.next() {
            Ok(Some(_)) => {}
            Ok(None) => break,
            Err(fault) => return say_refused(rt, fails_on(&mut source, fault)),
        }
    }
    let count = source.line_number();
    println!(rt; "end: {count} lines")
}

/// Whether the source gives this fault three more times, at the same line.
fn fails_on(source: &mut HeldSource<'_>, fault: SourceFault) -> bool {
    let place = source.line_number();
    for _ in 0..3u32 {
        if source.next() != Err(fault) || source.line_number() != place {
            return false;
        }
    }
    true
}

/// Judges the claim.
pub fn checked<R: Print + AllocGlobal>(rt: &R) -> io::Result<()> {
    let alloc = rt.alloc();
    let (Some(given), Some(copy), Some(certificate)) = (
        problem(alloc),
        problem(alloc),
        certificate(alloc),
    ) else {
        return not_begun(rt);
    };
    match check_held(alloc, given, certificate) {
        Ok(claim) => say_winner(rt, &claim),
        Err((reject, given, certificate)) => {
            say_refused(rt, reject.why == Why::Memory && is_same(&given, &copy))?;
            match check_held(alloc, given, certificate) {
                Ok(claim) => say_winner(rt, &claim),
                Err(_) => println!(rt; "end: no winner"),
            }
        }
    }
}

fn say_winner(rt: &impl Print, claim: &Checked) -> io::Result<()> {
    match claim.winner() {
        Colour::Black => println!(rt; "end: Black wins"),
        Colour::White => println!(rt; "end: White wins"),
    }
}

/// Solves the problem.
pub fn solved<R: Print + AllocGlobal>(rt: &R) -> io::Result<()> {
    let alloc = rt.alloc();
    let Some(table) = NonZeroUsize::new(100) else {
        return not_begun(rt);
    };
    let (Some(given), Some(copy)) = (problem(alloc), problem(alloc)) else {
        return not_begun(rt);
    };
    let budget = Budget {
        steps: 10_000,
        table,
    };
    match solve(alloc, given, budget) {
        Verdict::Wins(claim) => say_winner(rt, &claim),
        Verdict::Unknown { problem, cause, .. } => {
            say_refused(rt, cause == Cause::Memory && is_same(&problem, &copy))?;
            match solve(alloc, problem, budget) {
                Verdict::Wins(claim) => say_winner(rt, &claim),
                Verdict::Unknown { .. } => println!(rt; "end: no winner"),
            }
        }
    }
}
