//! Claims of given trees whose lemmas are known beforehand, and one whose lemma needs what was played above it.

use crate::expect::{expect_same, expect_that};
use crate::proof_numbers::{ALL, WITHOUT_PASTS, accepted, found, problem, saving};
use claim_maker::{Choice, MAX_TRIED, Pasts, Saving, claim_with_lemmas, share_tree};
use go_points::Colour;
use proof_cert::{Certificate, Version, read_cert, write_cert};
use std::alloc::Global;
use std::process::Abort;
use target_game::Problem;

// Expects the tree of this text for the problem to give the claim of that text, with these lemmas, and the checker to accept it.
fn becomes(
    rt: &impl Abort,
    alloc: Global,
    problem: Problem,
    choice: Choice,
    tree: &[u8],
    expected: &[u8],
) {
    let size = problem.size();
    let given = read_cert(alloc, size, tree).expect(rt, "a claim");
    let mut text = Vec::new(alloc);
    let mut nodes = MAX_TRIED;
    match share_tree(alloc, &problem, given.winner, &given.main) {
        Err(_) => panic!(rt; "a tree of legal turns"),
        Ok(shared) => match claim_with_lemmas(alloc, &problem, &shared, choice, &mut nodes) {
            Err(_) => panic!(rt; "a claim"),
            Ok(claim) => {
                expect_that(rt, write_cert(&claim, &mut text).is_ok());
                let _lemmas = accepted(rt, alloc, &problem, claim);
            }
        },
    }
    expect_same(rt, text.as_slice(), expected);
}

// White always passes. Both orders of Black's moves lead to one colouring with White to move. The state after White's pass occurs
// only in that lemma, so it is written in line.
#[test]
fn what_is_inside_one_lemma_alone_stays_in_line(rt: HostRuntime) {
    let alloc = rt.alloc();
    let far = problem(&rt, alloc, 3, &["O........"], Colour::Black, "aa", "bccc");
    let tree = "tsucert 1 3 W\nmain\nall 3\n\
        reply bc\nplay pass\nall 2\nreply cc\nplay pass\nall 1\nreply pass\nwon\nreply pass\nwon\n\
        reply cc\nplay pass\nall 2\nreply bc\nplay pass\nall 1\nreply pass\nwon\nreply pass\nwon\n\
        reply pass\nplay pass\nwon\nend\n";
    let expected = "tsucert 1 3 W\n\
        lemma W 0 O......XX\nplay pass\nall 1\nreply pass\nwon\nend\n\
        main\nall 3\n\
        reply bc\nplay pass\nall 2\nreply cc\nuse 1\nreply pass\nwon\n\
        reply cc\nplay pass\nall 2\nreply bc\nuse 1\nreply pass\nwon\n\
        reply pass\nplay pass\nwon\nend\n";
    becomes(&rt, alloc, far, ALL, tree.as_bytes(), expected.as_bytes());
}

// White fills its eye aa once Black has played at bc and cc: the lemma lists what comes of it. Black may never play at
// aa, since that would be a suicide of one stone.
#[test]
fn a_lemma_lists_the_results_of_the_winners_moves(rt: HostRuntime) {
    let alloc = rt.alloc();
    let eye = problem(&rt, alloc, 3, &[".O.O....."], Colour::Black, "ba", "aabccc");
    let tree = "tsucert 1 3 W\nmain\nall 3\n\
        reply bc\nplay pass\nall 2\nreply cc\nplay aa\nall 1\nreply pass\nplay pass\nwon\nreply pass\nwon\n\
        reply cc\nplay pass\nall 2\nreply bc\nplay aa\nall 1\nreply pass\nplay pass\nwon\nreply pass\nwon\n\
        reply pass\nplay pass\nwon\nend\n";
    let expected = "tsucert 1 3 W\n\
        lemma W 0 .O.O...XX\nnot OO.O...XX\nplay aa\nall 1\nreply pass\nplay pass\nwon\nend\n\
        main\nall 3\n\
        reply bc\nplay pass\nall 2\nreply cc\nuse 1\nreply pass\nwon\n\
        reply cc\nplay pass\nall 2\nreply bc\nuse 1\nreply pass\nwon\n\
        reply pass\nplay pass\nwon\nend\n";
    becomes(&rt, alloc, eye, ALL, tree.as_bytes(), expected.as_bytes());
}

// The body of the lemma above has four nodes, which it saves once, and it has two colourings: its root and the one that it lists.
#[test]
fn a_lemma_has_to_save_nodes_for_its_colourings(rt: HostRuntime) {
    let alloc = rt.alloc();
    let lemma = "play aa\nall 1\nreply pass\nplay pass\nwon\n";
    let main = |body: &str| {
        format!(in alloc;
            "main\nall 3\n\
            reply bc\nplay pass\nall 2\nreply cc\n{body}reply pass\nwon\n\
            reply cc\nplay pass\nall 2\nreply bc\n{body}reply pass\nwon\n\
            reply pass\nplay pass\nwon\nend\n"
        )
    };
    let in_line = main(lemma).expect(&rt, "memory");
    let tree = format!(in alloc; "tsucert 1 3 W\n{in_line}").expect(&rt, "memory");
    let used = main("use 1\n").expect(&rt, "memory");
    let expected = format!(in alloc;
        "tsucert 1 3 W\nlemma W 0 .O.O...XX\nnot OO.O...XX\n{lemma}end\n{used}"
    ).expect(&rt, "memory");
    for (least, text) in [
        (Saving::Half, expected.as_bytes()),
        (Saving::Four, tree.as_bytes()),
    ] {
        let eye = problem(&rt, alloc, 3, &[".O.O....."], Colour::Black, "ba", "aabccc");
        becomes(&rt, alloc, eye, saving(least), tree.as_bytes(), text);
    }
}

// White always passes. Black may play at two of cb, bc and cc, and never at the third, since that has occurred. Each pair is
// reached in two orders, and the proof there leaves out the third point.
#[test]
fn lemmas_that_need_a_past(rt: HostRuntime) {
    let alloc = rt.alloc();
    let texts = ["O....X.XX", "O........"];
    let pair = "play pass\nall 1\nreply pass\nwon\n";
    let three = |first: &str, second: &str, third: &str, fourth: &str, fifth: &str, sixth: &str| {
        format!(in alloc;
            "main\nall 4\n\
            reply cb\nplay pass\nall 3\nreply bc\n{first}reply cc\n{second}reply pass\nwon\n\
            reply bc\nplay pass\nall 3\nreply cb\n{third}reply cc\n{fourth}reply pass\nwon\n\
            reply cc\nplay pass\nall 3\nreply cb\n{fifth}reply bc\n{sixth}reply pass\nwon\n\
            reply pass\nplay pass\nwon\nend\n"
        )
    };
    let tree = three(pair, pair, pair, pair, pair, pair).expect(&rt, "memory");
    let plain = format!(in alloc; "tsucert 1 3 W\n{tree}").expect(&rt, "memory");
    let main = three(
        "use 1\n", "use 2\n", "use 1\n", "use 3\n", "use 2\n", "use 3\n",
    )
    .expect(&rt, "memory");
    let expected = format!(in alloc;
        "tsucert 2 3 W\n\
        lemma W 0 O....X.X.\nhad O....X.XX\n{pair}end\n\
        lemma W 0 O....X..X\nhad O....X.XX\n{pair}end\n\
        lemma W 0 O......XX\nhad O....X.XX\n{pair}end\n{main}"
    )
    .expect(&rt, "memory");
    let all = problem(&rt, alloc, 3, &texts, Colour::Black, "aa", "cbbccc");
    let text = plain.as_bytes();
    becomes(&rt, alloc, all, ALL, text, expected.as_bytes());
    // Without such lemmas each pair is written in line.
    let fewer = problem(&rt, alloc, 3, &texts, Colour::Black, "aa", "cbbccc");
    becomes(&rt, alloc, fewer, WITHOUT_PASTS, text, text);
}

// In line but for the first of them, if a lemma has to have three turns: it has two. It may not be one if none may need a past.
#[test]
fn the_first_of_small_lemmas_is_one_where_there_is_no_other(rt: HostRuntime) {
    let alloc = rt.alloc();
    let texts = ["O....X.XX", "O........"];
    let pair = "play pass\nall 1\nreply pass\nwon\n";
    let main = |first: &str| {
        format!(in alloc;
            "main\nall 4\n\
            reply cb\nplay pass\nall 3\nreply bc\n{first}reply cc\n{pair}reply pass\nwon\n\
            reply bc\nplay pass\nall 3\nreply cb\n{first}reply cc\n{pair}reply pass\nwon\n\
            reply cc\nplay pass\nall 3\nreply cb\n{pair}reply bc\n{pair}reply pass\nwon\n\
            reply pass\nplay pass\nwon\nend\n"
        )
    };
    let in_line = main(pair).expect(&rt, "memory");
    let plain = format!(in alloc; "tsucert 1 3 W\n{in_line}").expect(&rt, "memory");
    let used = main("use 1\n").expect(&rt, "memory");
    let one = format!(in alloc;
        "tsucert 2 3 W\nlemma W 0 O....X.X.\nhad O....X.XX\n{pair}end\n{used}"
    ).expect(&rt, "memory");
    let (tree, lemma) = (plain.as_bytes(), one.as_bytes());
    let long = Choice { least: 3, ..ALL };
    for (pasts, otherwise, text) in [
        (Pasts::Needed, Some(2), lemma),
        (Pasts::Needed, Some(3), tree),
        (Pasts::Needed, None, tree),
        (Pasts::None, Some(2), tree),
    ] {
        let all = problem(&rt, alloc, 3, &texts, Colour::Black, "aa", "cbbccc");
        let choice = Choice {
            pasts,
            otherwise,
            ..long
        };
        becomes(&rt, alloc, all, choice, tree, text);
    }
}

// Whether a lemma needs something that is not in the history of the problem: what was played above its first place.
fn needs_what_was_played(problem: &Problem, claim: &Certificate) -> bool {
    for lemma in claim.lemmas.as_slice() {
        for colouring in lemma.had.as_slice() {
            if !problem.history().contains(colouring) {
                return true;
            }
        }
    }
    false
}

// White has to live in nine points in a corner, and does not. If Black takes a ko there, the proof rests on the position before,
// which White may not bring back.
#[test]
fn a_lemma_may_need_what_was_played_above_it(rt: HostRuntime) {
    let alloc = rt.alloc();
    let texts = [".O.X.X.X.OXXXXXX"];
    let region = "aabacaabbbcbacbccc";
    let corner = problem(&rt, alloc, 4, &texts, Colour::White, "ba", region);
    let shared = found(&rt, alloc, &corner, 10_000);
    expect_same(&rt, shared.winner, Colour::Black);
    let mut nodes = MAX_TRIED;
    match claim_with_lemmas(alloc, &corner, &shared, ALL, &mut nodes) {
        Ok(claim) => {
            expect_same(&rt, claim.version, Version::Two);
            expect_that(&rt, needs_what_was_played(&corner, &claim));
            expect_that(&rt, accepted(&rt, alloc, &corner, claim) > 0);
        }
        Err(_) => panic!(&rt; "a claim with lemmas"),
    }
}
