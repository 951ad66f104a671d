//! Claims that are written and walked, compared with texts that were spelled by hand from the format.

use crate::expect::{expect_bytes, expect_number, expect_same, expect_text, expect_that};
use crate::narrow::Narrow;
use go_points::{Colour, Colouring, Point, Size, Turn};
use proof_cert::*;
use std::alloc::Global;
use std::process::Abort;

const SHARED: &str =
    "tsucert 1 3 B\nlemma B 0 O.OXO....\nnot .XOXO....\nplay ba\nwon\nend\nmain\nuse 1\nend\n";

const ANSWERED: &str =
    "tsucert 1 3 W\nlemma B 0 O.OXO....\nall 1\nreply pass\nplay pass\nwon\nend\nmain\nuse 1\nend\n";

const MEETING: &str =
    "tsucert 1 3 W\nlemma W 0 O......XX\nplay pass\nall 1\nreply pass\nwon\nend\nmain\nall 3\nreply bc\nplay pass\nall 2\nreply cc\nuse 1\nreply pass\nwon\nreply cc\nplay pass\nall 2\nreply bc\nuse 1\nreply pass\nwon\nreply pass\nplay pass\nwon\nend\n";

pub fn size_of(rt: &impl Abort, rows: u8) -> Size {
    Size::new(rows).expect(rt, "a size")
}

/// Expects the claim to have no spelling, and nothing of it to be written.
pub fn expect_no_spelling(rt: &impl Abort, alloc: Global, certificate: &Certificate) {
    let mut out = Vec::new(alloc);
    assert_eq!(rt;
        write_cert(certificate, &mut out),
        Err(CertWrite::NoSpelling)
    );
    expect_that(rt, out.is_empty());
}

fn at(rt: &impl Abort, column: u8, row: u8) -> Turn {
    Turn::At(size_of(rt, 19).point(column, row).expect(rt, "a point"))
}

pub fn colouring(rt: &impl Abort, rows: u8, text: &str) -> Colouring {
    Colouring::from_text(size_of(rt, rows), text.as_bytes()).expect(rt, "a colouring")
}

fn play(rt: &impl Abort, alloc: Global, turn: Turn, below: Node) -> Node {
    Node::Play(turn, Box::new(alloc, below).expect(rt, "memory"))
}

fn claim(rt: &impl Abort, winner: Colour, lemmas: Vec<Lemma>, main: Node) -> Certificate {
    Certificate {
        version: Version::One,
        size: size_of(rt, 3),
        winner,
        lemmas,
        main,
    }
}

/// A claim with a lemma that has this many passes and these listed colourings, and which main uses.
fn one_lemma(alloc: Global, rt: &impl Abort, passes: u8, listed: &[Colouring]) -> Certificate {
    let mut lemmas = Vec::new(alloc);
    lemmas
        .push(Lemma {
            mover: Colour::Black,
            passes,
            root: colouring(rt, 3, "O.OXO...."),
            had: Vec::new(alloc),
            absent: listed.to_vec(alloc).expect(rt, "memory"),
            body: play(rt, alloc, at(rt, 1, 0), Node::Won),
        })
        .expect(rt, "memory");
    claim(rt, Colour::Black, lemmas, Node::Use(1))
}

fn shared(alloc: Global, rt: &impl Abort) -> Certificate {
    one_lemma(alloc, rt, 0, &[colouring(rt, 3, ".XOXO....")])
}

/// All turns, of which there is only the pass, with this node below it.
fn only_pass(alloc: Global, rt: &impl Abort, below: Node) -> Node {
    let mut replies = Vec::new(alloc);
    replies.push((Turn::Pass, below)).expect(rt, "memory");
    Node::All(replies)
}

/// A claim of this version, with a lemma that has these lists and which main uses.
pub fn of_lists(
    alloc: Global,
    rt: &impl Abort,
    version: Version,
    had: &[Colouring],
    absent: &[Colouring],
) -> Certificate {
    let mut lemmas = Vec::new(alloc);
    lemmas
        .push(Lemma {
            mover: Colour::Black,
            passes: 0,
            root: colouring(rt, 3, "O.OXO...."),
            had: had.to_vec(alloc).expect(rt, "memory"),
            absent: absent.to_vec(alloc).expect(rt, "memory"),
            body: only_pass(alloc, rt, play(rt, alloc, Turn::Pass, Node::Won)),
        })
        .expect(rt, "memory");
    Certificate {
        version,
        size: size_of(rt, 3),
        winner: Colour::White,
        lemmas,
        main: Node::Use(1),
    }
}

fn answered(alloc: Global, rt: &impl Abort) -> Certificate {
    of_lists(alloc, rt, Version::One, &[], &[])
}

/// White passes, Black takes the other point and the lemma follows, or Black passes too.
fn one_point(rt: &impl Abort, alloc: Global, column: u8, row: u8) -> Node {
    let mut replies = Vec::new(alloc);
    replies
        .push((at(rt, column, row), Node::Use(1)))
        .expect(rt, "memory");
    replies.push((Turn::Pass, Node::Won)).expect(rt, "memory");
    play(rt, alloc, Turn::Pass, Node::All(replies))
}

fn meeting(alloc: Global, rt: &impl Abort) -> Certificate {
    let mut lemmas = Vec::new(alloc);
    lemmas
        .push(Lemma {
            mover: Colour::White,
            passes: 0,
            root: colouring(rt, 3, "O......XX"),
            had: Vec::new(alloc),
            absent: Vec::new(alloc),
            body: play(rt, alloc, Turn::Pass, only_pass(alloc, rt, Node::Won)),
        })
        .expect(rt, "memory");
    let mut replies = Vec::new(alloc);
    replies
        .push((at(rt, 1, 2), one_point(rt, alloc, 2, 2)))
        .expect(rt, "memory");
    replies
        .push((at(rt, 2, 2), one_point(rt, alloc, 1, 2)))
        .expect(rt, "memory");
    replies
        .push((Turn::Pass, play(rt, alloc, Turn::Pass, Node::Won)))
        .expect(rt, "memory");
    claim(rt, Colour::White, lemmas, Node::All(replies))
}

pub fn written(rt: &impl Abort, alloc: Global, certificate: &Certificate) -> Vec<u8> {
    let mut out = Vec::new(alloc);
    write_cert(certificate, &mut out).expect(rt, "memory");
    out
}

/// The lines that the source gives before it ends or fails, and whether it failed.
fn taken<S: NodeSource>(rt: &impl Abort, alloc: Global, source: &mut S) -> (Vec<Line>, bool) {
    let mut lines = Vec::new(alloc);
    for _ in 0..10_000 {
        match source.next() {
            Ok(Some(line)) => lines.push(line).expect(rt, "memory"),
            Ok(None) => return (lines, false),
            Err(_) => return (lines, true),
        }
    }
    (lines, true)
}

#[test]
fn writes_the_worked_claims(rt: HostRuntime) {
    let alloc = rt.alloc();
    expect_bytes(
        &rt,
        written(&rt, alloc, &shared(alloc, &rt)).as_slice(),
        SHARED.as_bytes(),
    );
    expect_bytes(
        &rt,
        written(&rt, alloc, &answered(alloc, &rt)).as_slice(),
        ANSWERED.as_bytes(),
    );
    expect_bytes(
        &rt,
        written(&rt, alloc, &meeting(alloc, &rt)).as_slice(),
        MEETING.as_bytes(),
    );
    let plain = claim(
        &rt,
        Colour::Black,
        Vec::new(alloc),
        play(&rt, alloc, at(&rt, 1, 0), Node::Won),
    );
    expect_bytes(
        &rt,
        written(&rt, alloc, &plain).as_slice(),
        b"tsucert 1 3 B\nmain\nplay ba\nwon\nend\n".as_slice(),
    );
}

#[test]
fn walks_the_lines_of_the_text(rt: HostRuntime) {
    let alloc = rt.alloc();
    let claims = [
        (shared(alloc, &rt), SHARED),
        (answered(alloc, &rt), ANSWERED),
        (meeting(alloc, &rt), MEETING),
    ];
    for (certificate, text) in &claims {
        let mut held = HeldSource::new(alloc, certificate);
        let mut spelled = ReaderSource::new(certificate.size, text.as_bytes(), b"".as_slice());
        expect_same(&rt, NodeSource::size(&held).rows(), 3);
        expect_number(&rt, NodeSource::line_number(&held), 0);
        let (walked, walk_failed) = taken(&rt, alloc, &mut held);
        let (read, read_failed) = taken(&rt, alloc, &mut spelled);
        expect_that(&rt, walked.as_slice() == read.as_slice());
        expect_that(&rt, !walk_failed && !read_failed);
        expect_number(&rt, NodeSource::line_number(&held), read.len() as u64);
    }
}

#[test]
fn refuses_what_has_no_spelling(rt: HostRuntime) {
    let alloc = rt.alloc();
    let unspelled = [
        claim(
            &rt,
            Colour::Black,
            Vec::new(alloc),
            play(&rt, alloc, at(&rt, 3, 0), Node::Won),
        ),
        claim(&rt, Colour::Black, Vec::new(alloc), Node::Use(0)),
        claim(&rt, Colour::Black, Vec::new(alloc), Node::Use(100_000_000)),
        claim(
            &rt,
            Colour::Black,
            Vec::new(alloc),
            Node::All(Vec::new(alloc)),
        ),
    ];
    for certificate in &unspelled {
        expect_no_spelling(&rt, alloc, certificate);
        // The header and `main` have a spelling, but the third line has none.
        let mut held = HeldSource::new(alloc, certificate);
        expect_that(&rt, matches!(held.next(), Ok(Some(Line::Header { .. }))));
        expect_that(&rt, matches!(held.next(), Ok(Some(Line::Main))));
        expect_that(&rt, matches!(held.next(), Err(SourceFault::Malformed)));
        expect_that(&rt, matches!(held.next(), Err(SourceFault::Malformed)));
        expect_number(&rt, held.line_number(), 3);
    }
}

#[test]
fn lemmas_may_have_no_spelling(rt: HostRuntime) {
    let alloc = rt.alloc();
    let listed = [colouring(&rt, 3, ".XOXO...."), colouring(&rt, 2, "....")];
    let wide = one_lemma(alloc, &rt, 0, &listed);
    expect_no_spelling(&rt, alloc, &wide);
    let (lines, failed) = taken(&rt, alloc, &mut HeldSource::new(alloc, &wide));
    expect_that(&rt, failed && lines.len() == 3);
    let passes = one_lemma(alloc, &rt, 2, &[]);
    expect_no_spelling(&rt, alloc, &passes);
    let (lines, failed) = taken(&rt, alloc, &mut HeldSource::new(alloc, &passes));
    expect_that(&rt, failed && lines.len() == 1);
}

#[test]
fn a_failed_write_leaves_a_front(rt: HostRuntime) {
    let alloc = rt.alloc();
    let certificate = meeting(alloc, &rt);
    for room in 0..MEETING.len() + 1 {
        let mut writer = Narrow {
            taken: Vec::new(alloc),
            piece: 7,
            room,
            fails: true,
        };
        let result = write_cert(&certificate, &mut writer);
        expect_same(&rt, result.is_ok(), room == MEETING.len());
        expect_bytes(&rt, writer.taken.as_slice(), &MEETING.as_bytes()[..room]);
    }
}

#[test]
fn trees_may_be_deep(rt: HostRuntime) {
    let alloc = rt.alloc();
    let mut tree = Node::Won;
    let mut body = Vec::new(alloc);
    for _ in 0..999 {
        tree = only_pass(alloc, &rt, play(&rt, alloc, Turn::Pass, tree));
        body.extend_from_slice(b"all 1\nreply pass\nplay pass\n")
            .expect(&rt, "memory");
    }
    let mut text = Vec::new(alloc);
    text.extend_from_slice(b"tsucert 1 3 B\nmain\n")
        .expect(&rt, "memory");
    text.extend_from_slice(body.as_slice())
        .expect(&rt, "memory");
    text.extend_from_slice(b"won\nend\n").expect(&rt, "memory");
    let certificate = claim(&rt, Colour::Black, Vec::new(alloc), tree);
    expect_that(
        &rt,
        written(&rt, alloc, &certificate).as_slice() == text.as_slice(),
    );
    let (lines, failed) = taken(&rt, alloc, &mut HeldSource::new(alloc, &certificate));
    expect_that(&rt, !failed && lines.len() == 3 * 999 + 4);
}

#[test]
fn faults_say_what_they_are(rt: HostRuntime) {
    let alloc = rt.alloc();
    expect_text(
        &rt,
        format!(in alloc; "{}", CertWrite::Write)
            .expect(&rt, "memory")
            .as_str(),
        "write",
    );
    expect_text(
        &rt,
        format!(in alloc; "{}", CertWrite::NoSpelling)
            .expect(&rt, "memory")
            .as_str(),
        "no spelling",
    );
}

#[test]
fn reads_back_what_is_written(rt: HostRuntime) {
    let alloc = rt.alloc();
    let texts = [
        SHARED,
        ANSWERED,
        MEETING,
        "tsucert 1 3 B\nlemma B 0 O.OXO....\nplay ba\nwon\nend\nmain\nuse 1\nend\n",
        "tsucert 1 3 B\nmain\nplay ba\nwon\nend\n",
        "tsucert 1 3 B\nmain\nplay pass\nwon\nend\n",
        "tsucert 1 3 W\nmain\nall 1\nreply pass\nplay pass\nwon\nend\n",
        "tsucert 1 3 W\nmain\nuse 99999999\nend\n",
    ];
    for text in &texts {
        let certificate = read_cert(alloc, size_of(&rt, 3), text.as_bytes()).expect(&rt, "a claim");
        expect_bytes(
            &rt,
            written(&rt, alloc, &certificate).as_slice(),
            text.as_bytes(),
        );
    }
}

#[test]
fn reads_no_other_bytes(rt: HostRuntime) {
    let alloc = rt.alloc();
    let texts = [
        "",
        "tsucert 1 3 B\nmain\nplay ba\nwon\nend",
        "tsucert 1 3 B\nmain\nplay ba\nwon\nend\n\n",
        "tsucert 1 3 B\nmain\nplay ba\nwon\n",
        "tsucert 1 3 B\nmain\nplay ba\nend\n",
        "tsucert 1 3 B\nplay ba\nwon\nend\n",
        "tsucert 1 4 B\nmain\nplay ba\nwon\nend\n",
        "tsucert 3 3 B\nmain\nplay ba\nwon\nend\n",
        "tsucert 02 3 B\nmain\nplay ba\nwon\nend\n",
        "tsucert 3 B\nmain\nplay ba\nwon\nend\n",
        "tsucert 1 03 B\nmain\nplay ba\nwon\nend\n",
        "tsucert 1 3 B \nmain\nplay ba\nwon\nend\n",
        "tsucert 1 3 B\r\nmain\r\nwon\r\nend\r\n",
        "tsucert 1 3 B\nmain\nplay da\nwon\nend\n",
        "tsucert 1 3 B\nmain\nuse 0\nend\n",
        "tsucert 1 3 B\nmain\nuse 01\nend\n",
        "tsucert 1 3 B\nmain\nuse 100000000\nend\n",
        "tsucert 1 3 W\nmain\nall 0\nend\n",
        "tsucert 1 3 W\nmain\nall 2\nreply pass\nwon\nend\n",
        "tsucert 1 3 W\nmain\nall 1\nreply pass\nwon\nreply pass\nwon\nend\n",
        "tsucert 1 3 B\nlemma B 2 O.OXO....\nwon\nend\nmain\nuse 1\nend\n",
        "tsucert 1 3 B\nlemma B 0 O.OXO...\nwon\nend\nmain\nuse 1\nend\n",
        "tsucert 1 3 B\nlemma B 0 O.OXO....\nhad .XOXO....\nwon\nend\nmain\nuse 1\nend\n",
        "tsucert 1 3 B\nlemma B 0 O.OXO....\nwon\nnot .XOXO....\nend\nmain\nuse 1\nend\n",
        "tsucert 1 3 B\nlemma B 0 O.OXO....\nwon\nmain\nuse 1\nend\n",
    ];
    for text in &texts {
        let read = read_cert(alloc, size_of(&rt, 3), text.as_bytes());
        expect_that(&rt, matches!(read, Err(SourceFault::Malformed)));
    }
}
