//! Short claims: a state where the defender lives by the shape of his stones is a leaf of them.

use crate::expect::{expect_same, expect_that};
use crate::positions::{Position, points, problem_of};
use crate::proof_numbers::{accepted, count_listed, problem, six_points};
use claim_maker::{MAX_TRIED, claim_without_lemmas};
use full_search::first_win;
use go_chains::ChainBoard;
use go_points::{Colour, Turn};
use pass_alive::is_pass_alive;
use pn_search::{Audience, Budget, Cause, find_short};
use proof_cert::{Certificate, Node};
use state_proofs::{Below, Branch, Form, Line, Play, Proofs, Settled, share};
use std::alloc::Global;
use std::num::NonZeroUsize;
use std::process::Abort;
use target_game::Problem;

fn budget(rt: &impl Abort, steps: u64) -> Budget {
    Budget {
        steps,
        table: NonZeroUsize::new(1_000).expect(rt, "a size"),
    }
}

// The claim for readers that is found with these steps, and how many are left.
fn found(rt: &impl Abort, alloc: Global, problem: &Problem, steps: u64) -> (Certificate, u64) {
    found_for(rt, alloc, problem, Audience::Readers, steps)
}

fn found_for(
    rt: &impl Abort,
    alloc: Global,
    problem: &Problem,
    audience: Audience,
    steps: u64,
) -> (Certificate, u64) {
    let mut left = steps;
    match find_short(alloc, problem, audience, budget(rt, steps), &mut left) {
        Ok(claim) => (claim, left),
        Err(_) => panic!(rt; "a claim"),
    }
}

// Expects that with these steps of a budget nothing is found for want of steps, and that none is left.
fn runs_out(rt: &impl Abort, alloc: Global, problem: &Problem, budget: Budget, steps: u64) {
    let mut left = steps;
    match find_short(alloc, problem, Audience::Judge, budget, &mut left) {
        Ok(_) => panic!(rt; "no claim"),
        Err(cause) => expect_same(rt, cause, Cause::Steps),
    }
    expect_same(rt, left, 0);
}

// Expects the leaf to stand where nobody has won, and where the defender lives by the definition, which another crate decides.
fn expect_life(rt: &impl Abort, problem: &Problem, play: &mut Play) {
    let goes_on = play.go(Turn::Pass).expect(rt, "memory");
    expect_that(rt, goes_on);
    play.back();
    match ChainBoard::from_colouring(&play.colouring()) {
        Ok(board) => expect_that(
            rt,
            is_pass_alive(
                &board,
                problem.targets(),
                problem.defender(),
                problem.region(),
            ),
        ),
        Err(_) => panic!(rt; "a board"),
    }
}

// How many leaves the tree has at the end of the play. Each turn has to be legal, and the defender to live at each leaf.
#[cycle(leaves)]
fn leaves(rt: &impl Abort, problem: &Problem, play: &mut Play, node: &Node) -> u64 {
    match node {
        Node::Won => 0,
        Node::Use(lemma) => {
            if *lemma > 0 {
                return 0;
            }
            expect_life(rt, problem, play);
            1
        }
        Node::Play(turn, below) => leaves_below(rt, problem, play, *turn, below),
        Node::All(replies) => {
            let mut all: u64 = 0;
            for reply in replies.as_slice() {
                let more = leaves_below(rt, problem, play, reply.0, &reply.1);
                all = all.saturating_add(more);
            }
            all
        }
    }
}

#[cycle(leaves)]
fn leaves_below(
    rt: &impl Abort,
    problem: &Problem,
    play: &mut Play,
    turn: Turn,
    below: &Node,
) -> u64 {
    let is_made = play.go(turn).expect(rt, "memory");
    expect_that(rt, is_made);
    let all = leaves(rt, problem, play, below);
    play.back();
    all
}

// How many leaves the main tree and the lemmas have.
fn all_leaves(rt: &impl Abort, alloc: Global, problem: &Problem, claim: &Certificate) -> u64 {
    let mut play = Play::of(alloc, problem).expect(rt, "memory");
    let mut all = leaves(rt, problem, &mut play, &claim.main);
    for lemma in claim.lemmas.as_slice() {
        let start = Play::at(alloc, problem, &lemma.root, lemma.mover, lemma.passes);
        let mut play = start.expect(rt, "a state");
        all = all.saturating_add(leaves(rt, problem, &mut play, &lemma.body));
    }
    all
}

fn is_leaf(node: &Node) -> bool {
    match node {
        Node::Use(lemma) => *lemma == 0,
        _ => false,
    }
}

// Whether the tree is a turn at this point and then a leaf.
fn is_turn_to_leaf(rt: &impl Abort, node: &Node, letters: &str) -> bool {
    match node {
        Node::Play(turn, below) => match turn {
            Turn::At(point) => points(rt, 5, letters).has(*point) && is_leaf(below),
            Turn::Pass => false,
        },
        _ => false,
    }
}

// White's eye space in the corner is aa, ba and ca, and all other liberties are taken.
fn three_points(rt: &impl Abort, alloc: Global, mover: Colour) -> Problem {
    let texts = ["...OXOOOOXXXXXX.........."];
    problem(rt, alloc, 5, &texts, mover, "ab", "aabaca")
}

// Black has eyes of one point each at aa and ca. Nothing is searched, whoever is to move, after a pass or not. With fewer than ten
// steps there is no full search, which would find a tree without leaves.
#[test]
fn a_living_group_is_one_leaf(rt: HostRuntime) {
    let alloc = rt.alloc();
    for mover in [Colour::Black, Colour::White] {
        for passes in [0u64, 1u64] {
            let position = Position {
                rows: 5,
                texts: &[".X.XOXXXXOOOOOO.........."],
                mover,
                passes,
                targets: "ab",
                region: "aaca",
            };
            let living = problem_of(&rt, alloc, &position);
            let (claim, left) = found(&rt, alloc, &living, 9);
            expect_same(&rt, claim.winner, Colour::Black);
            expect_that(&rt, claim.lemmas.is_empty());
            expect_that(&rt, is_leaf(&claim.main));
            expect_same(&rt, left, 9);
        }
    }
}

// White takes the middle of three points and then has two eyes. That is one step, and the leaf is none.
#[test]
fn a_move_to_two_eyes_is_a_turn_and_a_leaf(rt: HostRuntime) {
    let alloc = rt.alloc();
    let corner = three_points(&rt, alloc, Colour::White);
    let (claim, left) = found(&rt, alloc, &corner, 1);
    expect_same(&rt, claim.winner, Colour::White);
    expect_that(&rt, claim.lemmas.is_empty());
    expect_that(&rt, is_turn_to_leaf(&rt, &claim.main, "ba"));
    expect_same(&rt, left, 0);
    runs_out(&rt, alloc, &corner, budget(&rt, 0), 0);
}

// A tree of full search has no leaves, so that the checker of other claims accepts it. Black takes aa at ba.
#[test]
fn full_search_comes_first(rt: HostRuntime) {
    let alloc = rt.alloc();
    let corner = problem(&rt, alloc, 3, &["O..X....."], Colour::Black, "aa", "ba");
    let (claim, left) = found(&rt, alloc, &corner, 40);
    expect_same(&rt, left, 39);
    expect_same(&rt, accepted(&rt, alloc, &corner, claim), 0);
}

// Full search does not find a win in ten steps. Where the attacker wins, no state lives, and the checker of other claims accepts the
// claim.
#[test]
fn the_attackers_claim_has_no_leaf(rt: HostRuntime) {
    let alloc = rt.alloc();
    let corner = three_points(&rt, alloc, Colour::Black);
    let mut ten = 10;
    let full = first_win(alloc, &corner, 0, &mut ten).expect(&rt, "memory");
    expect_that(&rt, full.is_none());
    let (claim, _left) = found(&rt, alloc, &corner, 100);
    expect_same(&rt, claim.winner, Colour::Black);
    expect_same(&rt, all_leaves(&rt, alloc, &corner, &claim), 0);
    let _lemmas = accepted(&rt, alloc, &corner, claim);
}

// Six points in a corner are the mover's. White, who defends, wins by states where he lives; Black wins by none.
#[test]
fn the_defender_lives_at_each_leaf(rt: HostRuntime) {
    let alloc = rt.alloc();
    let living = six_points(&rt, alloc, Colour::White);
    let (claim, _left) = found(&rt, alloc, &living, 2_000);
    expect_same(&rt, claim.winner, Colour::White);
    expect_that(&rt, all_leaves(&rt, alloc, &living, &claim) > 0);
    let dying = six_points(&rt, alloc, Colour::Black);
    let (claim, _left) = found(&rt, alloc, &dying, 2_000);
    expect_same(&rt, claim.winner, Colour::Black);
    expect_same(&rt, all_leaves(&rt, alloc, &dying, &claim), 0);
}

// The same steps find the same proof. Of the lemmas for readers, those that list more than they save are not in the judge's claim.
#[test]
fn a_claim_for_the_judge_lists_less(rt: HostRuntime) {
    let alloc = rt.alloc();
    let dying = six_points(&rt, alloc, Colour::Black);
    let (shown, left) = found_for(&rt, alloc, &dying, Audience::Readers, 2_000);
    let (judged, left_too) = found_for(&rt, alloc, &dying, Audience::Judge, 2_000);
    expect_same(&rt, left_too, left);
    expect_same(&rt, judged.winner, shown.winner);
    expect_that(&rt, count_listed(&judged) < count_listed(&shown));
    let _few = accepted(&rt, alloc, &dying, judged);
    let _many = accepted(&rt, alloc, &dying, shown);
}

// Three expansions are too few to show that six points are dead: White has more replies than that. A budget of more steps than are
// left changes nothing.
#[test]
fn too_few_steps_find_nothing(rt: HostRuntime) {
    let alloc = rt.alloc();
    let dying = six_points(&rt, alloc, Colour::Black);
    runs_out(&rt, alloc, &dying, budget(&rt, 3), 3);
    runs_out(&rt, alloc, &dying, budget(&rt, 1_000), 3);
}

// The proofs of a turn to a leaf, by hand, are the same after they are shared along the line.
#[test]
fn a_leaf_is_shared(rt: HostRuntime) {
    let alloc = rt.alloc();
    let corner = three_points(&rt, alloc, Colour::White);
    let mut play = Play::of(alloc, &corner).expect(&rt, "memory");
    let first = play.key();
    let point = points(&rt, 5, "ba").first().expect(&rt, "a point");
    let is_made = play.go(Turn::At(point)).expect(&rt, "memory");
    expect_that(&rt, is_made);
    let mut proofs = Proofs::new(alloc);
    let leaf = Settled {
        key: play.key(),
        winner: Colour::White,
        form: Form::Alive,
        is_expanded: false,
    };
    let number = proofs.add_leaf(leaf).expect(&rt, "memory");
    let branch = Branch::of(Turn::At(point), Below::Proof(number));
    let settled = Settled {
        key: first,
        winner: Colour::White,
        form: Form::Turn,
        is_expanded: true,
    };
    let reached = Some(play.key().position);
    let root = proofs
        .add(settled, &[branch], reached, &[])
        .expect(&rt, "memory");
    let line = Line::of(alloc, &corner).expect(&rt, "memory");
    let mut nodes = MAX_TRIED;
    match share(alloc, line, proofs, root) {
        Ok(shared) => match claim_without_lemmas(alloc, &corner, &shared, &mut nodes) {
            Ok(claim) => expect_that(&rt, is_turn_to_leaf(&rt, &claim.main, "ba")),
            Err(_) => panic!(&rt; "a claim"),
        },
        Err(_) => panic!(&rt; "a shared proof"),
    }
}
