//! Claims of version 2, whose lemmas say which colourings must have occurred.

use crate::claims::{colouring, expect_no_spelling, of_lists, size_of, written};
use crate::expect::{expect_number, expect_same, expect_that};
use proof_cert::*;

const NEEDED: &str =
    "tsucert 2 3 W\nlemma B 0 O.OXO....\nhad .XOXO....\nall 1\nreply pass\nplay pass\nwon\nend\nmain\nuse 1\nend\n";

#[test]
fn writes_what_must_have_occurred_before_what_must_not(rt: HostRuntime) {
    let alloc = rt.alloc();
    let needed = [colouring(&rt, 3, ".XOXO....")];
    let one = of_lists(alloc, &rt, Version::Two, &needed, &[]);
    expect_that(
        &rt,
        written(&rt, alloc, &one).as_slice() == NEEDED.as_bytes(),
    );
    let had = [
        colouring(&rt, 3, "........."),
        colouring(&rt, 3, "O........"),
    ];
    let absent = [colouring(&rt, 3, "X........")];
    let both = of_lists(alloc, &rt, Version::Two, &had, &absent);
    let text =
        b"tsucert 2 3 W\nlemma B 0 O.OXO....\nhad .........\nhad O........\nnot X........\nall 1\nreply pass\nplay pass\nwon\nend\nmain\nuse 1\nend\n";
    expect_that(
        &rt,
        written(&rt, alloc, &both).as_slice() == text.as_slice(),
    );
    let none = of_lists(alloc, &rt, Version::Two, &[], &[]);
    let text =
        b"tsucert 2 3 W\nlemma B 0 O.OXO....\nall 1\nreply pass\nplay pass\nwon\nend\nmain\nuse 1\nend\n";
    expect_that(
        &rt,
        written(&rt, alloc, &none).as_slice() == text.as_slice(),
    );
}

#[test]
fn version_one_has_no_line_for_what_must_have_occurred(rt: HostRuntime) {
    let alloc = rt.alloc();
    let needed = [colouring(&rt, 3, ".XOXO....")];
    let old = of_lists(alloc, &rt, Version::One, &needed, &[]);
    expect_no_spelling(&rt, alloc, &old);
    // The header and the lemma's first line have a spelling, but the third line has none.
    let mut held = HeldSource::new(alloc, &old);
    expect_that(
        &rt,
        matches!(
            held.next(),
            Ok(Some(Line::Header {
                version: Version::One,
                ..
            }))
        ),
    );
    expect_that(&rt, matches!(held.next(), Ok(Some(Line::Lemma { .. }))));
    expect_that(&rt, matches!(held.next(), Err(SourceFault::Malformed)));
    expect_that(&rt, matches!(held.next(), Err(SourceFault::Malformed)));
    expect_number(&rt, held.line_number(), 3);
}

#[test]
fn what_must_have_occurred_is_of_the_size(rt: HostRuntime) {
    let alloc = rt.alloc();
    let small = [colouring(&rt, 2, "....")];
    let other = of_lists(alloc, &rt, Version::Two, &small, &[]);
    expect_no_spelling(&rt, alloc, &other);
}

#[test]
fn reads_what_it_writes(rt: HostRuntime) {
    let alloc = rt.alloc();
    let texts = [
        NEEDED,
        "tsucert 2 3 W\nlemma B 0 O.OXO....\nhad .........\nhad O........\nnot X........\nwon\nend\nmain\nuse 1\nend\n",
        "tsucert 2 3 W\nlemma B 0 O.OXO....\nnot X........\nwon\nend\nmain\nuse 1\nend\n",
        "tsucert 2 3 B\nmain\nwon\nend\n",
        "tsucert 1 3 W\nlemma B 0 O.OXO....\nnot X........\nwon\nend\nmain\nuse 1\nend\n",
    ];
    for text in &texts {
        let certificate = read_cert(alloc, size_of(&rt, 3), text.as_bytes()).expect(&rt, "a claim");
        expect_that(
            &rt,
            written(&rt, alloc, &certificate).as_slice() == text.as_bytes(),
        );
    }
}

#[test]
fn reads_no_such_line_elsewhere(rt: HostRuntime) {
    let alloc = rt.alloc();
    let texts = [
        "tsucert 1 3 W\nlemma B 0 O.OXO....\nhad .XOXO....\nwon\nend\nmain\nuse 1\nend\n",
        "tsucert 2 3 W\nlemma B 0 O.OXO....\nnot X........\nhad .XOXO....\nwon\nend\nmain\nuse 1\nend\n",
        "tsucert 2 3 W\nlemma B 0 O.OXO....\nhad .XOXO...\nwon\nend\nmain\nuse 1\nend\n",
        "tsucert 2 3 W\nlemma B 0 O.OXO....\nwon\nhad .XOXO....\nend\nmain\nuse 1\nend\n",
        "tsucert 2 3 W\nhad .XOXO....\nmain\nwon\nend\n",
        "tsucert 2 3 W\nmain\nhad .XOXO....\nwon\nend\n",
    ];
    for text in &texts {
        let read = read_cert(alloc, size_of(&rt, 3), text.as_bytes());
        expect_that(&rt, matches!(read, Err(SourceFault::Malformed)));
    }
}

#[test]
fn gives_the_lines_of_its_text(rt: HostRuntime) {
    let alloc = rt.alloc();
    let needed = [colouring(&rt, 3, ".XOXO....")];
    let certificate = of_lists(alloc, &rt, Version::Two, &needed, &needed);
    let text = written(&rt, alloc, &certificate);
    let mut held = HeldSource::new(alloc, &certificate);
    let mut read = ReaderSource::new(size_of(&rt, 3), text.as_slice(), b"".as_slice());
    for _ in 0..12 {
        let line = held.next();
        expect_that(&rt, matches!(line, Ok(Some(_))));
        expect_that(&rt, line == read.next());
    }
    expect_same(&rt, held.next(), Ok(None));
    expect_same(&rt, read.next(), Ok(None));
}
