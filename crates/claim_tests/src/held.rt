//! Certificates held in memory, checked for problems on boards of three rows.

use crate::expect::{expect_colour, expect_count, expect_same};
use crate::small_problems::{point, problem};
use cert_check::{Checked, Reject, Why, check_held};
use go_points::{Colour, Colouring, Size, Turn};
use proof_cert::{Certificate, Lemma, Node, Version};
use std::alloc::Global;
use std::process::Abort;
use target_game::Problem;

// Black takes a ko, after these colourings have occurred.
fn ko(alloc: Global, rt: &impl Abort, texts: &[&str]) -> Problem {
    problem(alloc, rt, 3, texts, Colour::Black, &[(1, 0)])
}

// One lemma, in which black takes the ko, and main, which uses the lemma with this number; for a board of this many rows.
fn takes_ko(alloc: Global, rt: &impl Abort, rows: u8, number: u32) -> Certificate {
    let three = Size::new(3).expect(rt, "a size");
    let mut absent = Vec::new(alloc);
    absent
        .push(Colouring::from_text(three, b".XOXO....").expect(rt, "a colouring"))
        .expect(rt, "memory");
    let mut lemmas = Vec::new(alloc);
    lemmas
        .push(Lemma {
            mover: Colour::Black,
            passes: 0,
            root: Colouring::from_text(three, b"O.OXO....").expect(rt, "a colouring"),
            had: Vec::new(alloc),
            absent,
            body: Node::Play(
                Turn::At(point(rt, 3, 1, 0)),
                Box::new(alloc, Node::Won).expect(rt, "memory"),
            ),
        })
        .expect(rt, "memory");
    Certificate {
        version: Version::One,
        size: Size::new(rows).expect(rt, "a size"),
        winner: Colour::Black,
        lemmas,
        main: Node::Use(number),
    }
}

// The first fault, with the problem and the certificate as they were handed in.
fn refused(rt: &impl Abort, answer: Result<Checked, (Reject, Problem, Certificate)>) -> Reject {
    match answer {
        Ok(_) => panic!(rt; "a refusal was due"),
        Err((reject, problem, certificate)) => {
            expect_same(rt, problem.size().rows(), 3);
            expect_colour(rt, problem.mover(), Colour::Black);
            expect_colour(rt, certificate.winner, Colour::Black);
            expect_count(rt, certificate.lemmas.len(), 1);
            reject
        }
    }
}

#[test]
fn a_certificate_that_is_valid(rt: HostRuntime) {
    let open = ko(rt.alloc(), &rt, &["O.OXO...."]);
    let certificate = takes_ko(rt.alloc(), &rt, 3, 1);
    match check_held(rt.alloc(), open, certificate) {
        Ok(checked) => {
            expect_colour(&rt, checked.winner(), Colour::Black);
            expect_count(&rt, checked.problem().history().len(), 1);
            expect_count(&rt, checked.certificate().lemmas.len(), 1);
        }
        Err(_) => panic!(&rt; "a valid certificate"),
    }
}

#[test]
fn certificates_that_are_not_valid(rt: HostRuntime) {
    let closed = ko(rt.alloc(), &rt, &["O.OXO....", ".XOXO...."]);
    let occurred = check_held(rt.alloc(), closed, takes_ko(rt.alloc(), &rt, 3, 1));
    expect_same(
        &rt,
        refused(&rt, occurred),
        Reject {
            place: 8,
            why: Why::ListedOccurred,
        },
    );
    let open = ko(rt.alloc(), &rt, &["O.OXO...."]);
    let number = check_held(rt.alloc(), open, takes_ko(rt.alloc(), &rt, 3, 2));
    expect_same(
        &rt,
        refused(&rt, number),
        Reject {
            place: 8,
            why: Why::LemmaNotLower,
        },
    );
    let wide = ko(rt.alloc(), &rt, &["O.OXO...."]);
    let size = check_held(rt.alloc(), wide, takes_ko(rt.alloc(), &rt, 4, 1));
    expect_same(
        &rt,
        refused(&rt, size),
        Reject {
            place: 1,
            why: Why::SizeDiffers,
        },
    );
}
