//! What the search by proof numbers finds, which is given to the checker.

use crate::expect::{expect_same, expect_that};
use crate::positions::{Position, problem_of};
use cert_check::check_held;
use claim_maker::{Choice, MAX_TRIED, Pasts, Saving, claim_with_lemmas, claim_without_lemmas};
use go_points::Colour;
use local_search::prove;
use proof_cert::{Certificate, Version, write_cert};
use state_proofs::{Answers, Proofs, Refusal, Shared, Stop};
use std::alloc::Global;
use std::num::NonZeroUsize;
use std::process::Abort;
use target_game::Problem;

// The problem on a board of this many rows whose present colouring is the last of its history.
pub fn problem(
    rt: &impl Abort,
    alloc: Global,
    rows: u8,
    texts: &[&str],
    mover: Colour,
    targets: &str,
    region: &str,
) -> Problem {
    let position = Position {
        rows,
        texts,
        mover,
        passes: 0,
        targets,
        region,
    };
    problem_of(rt, alloc, &position)
}

fn states(rt: &impl Abort, table: usize) -> NonZeroUsize {
    NonZeroUsize::new(table).expect(rt, "a table")
}

// Why this many steps do not settle the problem, or `None` if they do, and how many are left.
fn settled(
    rt: &impl Abort,
    alloc: Global,
    problem: &Problem,
    table: usize,
    steps: u64,
) -> (Option<Stop>, u64) {
    let mut left = steps;
    match prove(alloc, problem, states(rt, table), Answers::First, &mut left) {
        Ok(_) => (None, left),
        Err(stop) => (Some(stop), left),
    }
}

// Like `settled`, with a table of a hundred states.
fn answered(rt: &impl Abort, alloc: Global, problem: &Problem, steps: u64) -> (Option<Stop>, u64) {
    settled(rt, alloc, problem, 100, steps)
}

// The proofs that are found with a table of this many entries and enough steps.
pub fn found(rt: &impl Abort, alloc: Global, problem: &Problem, table: usize) -> Shared {
    let mut left = 200_000;
    match prove(alloc, problem, states(rt, table), Answers::Small, &mut left) {
        Ok(shared) => shared,
        Err(_) => panic!(rt; "a proof"),
    }
}

// How many lemmas the claim has. The checker has to accept it.
pub fn accepted(rt: &impl Abort, alloc: Global, problem: &Problem, claim: Certificate) -> usize {
    let copy = problem.copy(alloc).expect(rt, "memory");
    let lemmas = claim.lemmas.len();
    let winner = claim.winner;
    match check_held(alloc, copy, claim) {
        Ok(checked) => expect_same(rt, checked.winner(), winner),
        Err(_) => panic!(rt; "a valid claim"),
    }
    lemmas
}

// All proofs that are used several times; or only those of them that need no past.
pub const ALL: Choice = Choice {
    pasts: Pasts::Needed,
    least: 0,
    saving: Saving::Any,
    otherwise: None,
};

pub const WITHOUT_PASTS: Choice = Choice {
    pasts: Pasts::None,
    ..ALL
};

// Those that save so much.
pub fn saving(saving: Saving) -> Choice {
    Choice { saving, ..ALL }
}

// Expects this side to win, and the claims with lemmas, chosen in each way, and without any to be accepted. Returns how many lemmas
// there are if all that can be are.
fn wins(rt: &impl Abort, alloc: Global, problem: &Problem, winner: Colour, table: usize) -> usize {
    let shared = found(rt, alloc, problem, table);
    expect_same(rt, shared.winner, winner);
    let mut nodes = MAX_TRIED;
    match claim_without_lemmas(alloc, problem, &shared, &mut nodes) {
        Ok(claim) => expect_same(rt, accepted(rt, alloc, problem, claim), 0),
        Err(_) => panic!(rt; "a claim"),
    }
    let plain = claimed(rt, alloc, problem, &shared, WITHOUT_PASTS);
    expect_same(rt, plain.version, Version::One);
    let _fewer = accepted(rt, alloc, problem, plain);
    for least in [Saving::Half, Saving::Four] {
        let _some = with_lemmas(rt, alloc, problem, &shared, saving(least));
    }
    with_lemmas(rt, alloc, problem, &shared, ALL)
}

// How many lemmas the claim has, which the checker has to accept.
fn with_lemmas(
    rt: &impl Abort,
    alloc: Global,
    problem: &Problem,
    shared: &Shared,
    choice: Choice,
) -> usize {
    let claim = claimed(rt, alloc, problem, shared, choice);
    accepted(rt, alloc, problem, claim)
}

fn claimed(
    rt: &impl Abort,
    alloc: Global,
    problem: &Problem,
    shared: &Shared,
    choice: Choice,
) -> Certificate {
    let mut nodes = MAX_TRIED;
    match claim_with_lemmas(alloc, problem, shared, choice, &mut nodes) {
        Ok(claim) => claim,
        Err(_) => panic!(rt; "a claim with lemmas"),
    }
}

// Expects this many steps to be enough, and one fewer not to be; the side to win; and no claim to be refused.
fn check(rt: &impl Abort, alloc: Global, problem: Problem, winner: Colour, steps: u64) {
    let too_few = answered(rt, alloc, &problem, steps.saturating_sub(1));
    expect_that(rt, too_few == (Some(Stop::Steps), 0));
    expect_that(rt, answered(rt, alloc, &problem, steps) == (None, 0));
    let _lemmas = wins(rt, alloc, &problem, winner, 100);
}

// White's aa is in atari, and Black takes it at ba.
#[test]
fn a_capture_takes_one_step(rt: HostRuntime) {
    let alloc = rt.alloc();
    let corner = problem(&rt, alloc, 3, &["O..X....."], Colour::Black, "aa", "ba");
    check(&rt, alloc, corner, Colour::Black, 1);
}

// White fills ba, Black passes, and White passes: these three states have to be expanded.
#[test]
fn a_liberty_filled_takes_three_steps(rt: HostRuntime) {
    let alloc = rt.alloc();
    let corner = problem(&rt, alloc, 3, &["O..X....."], Colour::White, "aa", "ba");
    check(&rt, alloc, corner, Colour::White, 3);
}

// Both of White's moves are suicides of one stone. So White passes, and Black passes too.
#[test]
fn suicides_of_one_stone_are_barred(rt: HostRuntime) {
    let alloc = rt.alloc();
    let eyes = problem(&rt, alloc, 3, &[".XXXXXXX."], Colour::White, "bb", "aacc");
    check(&rt, alloc, eyes, Colour::Black, 2);
}

// White has just taken the ko, so Black may only pass, and White's pass ends the game.
#[test]
fn a_ko_is_barred_by_the_past(rt: HostRuntime) {
    let alloc = rt.alloc();
    let texts = [".XOXO....", "O.OXO...."];
    let ko = problem(&rt, alloc, 3, &texts, Colour::Black, "aa", "ba");
    check(&rt, alloc, ko, Colour::White, 2);
}

// The same colouring with no past: Black takes the ko.
#[test]
fn a_ko_without_a_past_is_taken(rt: HostRuntime) {
    let alloc = rt.alloc();
    let ko = problem(&rt, alloc, 3, &["O.OXO...."], Colour::Black, "aa", "ba");
    check(&rt, alloc, ko, Colour::Black, 1);
}

// After Black's cc, taking the ko would no longer repeat a position, so White fills ba. After a pass White passes, which ends the
// game, though ba wins as well.
#[test]
fn the_ko_is_filled_where_it_opens(rt: HostRuntime) {
    let alloc = rt.alloc();
    let texts = [".XOXO....", "O.OXO...."];
    let ko = problem(&rt, alloc, 3, &texts, Colour::Black, "aa", "bacc");
    let shared = found(&rt, alloc, &ko, 100);
    let mut text = Vec::new(alloc);
    let mut nodes = MAX_TRIED;
    if let Ok(claim) = claim_without_lemmas(alloc, &ko, &shared, &mut nodes) {
        expect_that(&rt, write_cert(&claim, &mut text).is_ok());
    }
    let expected =
        "tsucert 1 3 W\nmain\nall 2\nreply cc\nplay ba\nall 1\nreply pass\nplay pass\nwon\n\
        reply pass\nplay pass\nwon\nend\n";
    expect_same(&rt, text.as_slice(), expected.as_bytes());
}

// A claim takes its nodes from those that may be tried, and is not begun where one is missing.
#[test]
fn claims_share_the_nodes_that_may_be_tried(rt: HostRuntime) {
    let alloc = rt.alloc();
    let corner = problem(&rt, alloc, 3, &["O..X....."], Colour::White, "aa", "ba");
    let shared = found(&rt, alloc, &corner, 100);
    let mut nodes = MAX_TRIED;
    expect_that(
        &rt,
        claim_without_lemmas(alloc, &corner, &shared, &mut nodes).is_ok(),
    );
    let taken = MAX_TRIED.saturating_sub(nodes);
    expect_that(&rt, taken > 0);
    let mut enough = taken;
    expect_that(
        &rt,
        claim_without_lemmas(alloc, &corner, &shared, &mut enough).is_ok(),
    );
    expect_same(&rt, enough, 0);
    let mut too_few = taken.saturating_sub(1);
    match claim_without_lemmas(alloc, &corner, &shared, &mut too_few) {
        Err(Refusal::Limit) => expect_same(&rt, too_few, taken.saturating_sub(1)),
        _ => panic!(&rt; "a refusal"),
    }
}

// White's stone has two liberties that no move of Black's can take.
#[test]
fn moves_far_away_take_nothing(rt: HostRuntime) {
    let alloc = rt.alloc();
    let far = problem(&rt, alloc, 3, &["O........"], Colour::Black, "aa", "bccc");
    let _lemmas = wins(&rt, alloc, &far, Colour::White, 100);
}

#[test]
fn no_steps_find_nothing(rt: HostRuntime) {
    let alloc = rt.alloc();
    let corner = problem(&rt, alloc, 3, &["O..X....."], Colour::Black, "aa", "ba");
    let (stop, left) = settled(&rt, alloc, &corner, 100, 0);
    expect_same(&rt, stop, Some(Stop::Steps));
    expect_same(&rt, left, 0);
}

// White's eye space in the corner is aa, ba and ca, and all other liberties are taken. The mover takes the middle: if that is
// White, it has two eyes, and otherwise only one.
#[test]
fn three_points_are_decided_by_their_middle(rt: HostRuntime) {
    let alloc = rt.alloc();
    let texts = ["...OXOOOOXXXXXX.........."];
    for mover in [Colour::Black, Colour::White] {
        let corner = problem(&rt, alloc, 5, &texts, mover, "ab", "aabaca");
        let _lemmas = wins(&rt, alloc, &corner, mover, 100_000);
    }
}

// White's eye space in the corner has three points by two, and all other liberties are taken.
pub fn six_points(rt: &impl Abort, alloc: Global, mover: Colour) -> Problem {
    let texts = ["...OX.....OX..OOOOX..XXXXX......................."];
    problem(rt, alloc, 7, &texts, mover, "ac", "aabacaabbbcb")
}

// Moves meet in many orders, kos among them; whatever the table forgets, the mover wins and no claim is refused.
#[test]
fn six_points_in_a_corner_are_the_movers(rt: HostRuntime) {
    let alloc = rt.alloc();
    for mover in [Colour::Black, Colour::White] {
        let corner = six_points(&rt, alloc, mover);
        for table in [1, 100, 10_000] {
            expect_that(&rt, wins(&rt, alloc, &corner, mover, table) > 0);
        }
    }
}

// How many colourings the claim with such lemmas lists.
fn listed(
    rt: &impl Abort,
    alloc: Global,
    problem: &Problem,
    shared: &Shared,
    choice: Choice,
) -> usize {
    count_listed(&claimed(rt, alloc, problem, shared, choice))
}

// How many colourings the claim lists.
pub fn count_listed(claim: &Certificate) -> usize {
    let mut count: usize = 0;
    for lemma in claim.lemmas.as_slice() {
        count = count
            .saturating_add(lemma.had.len())
            .saturating_add(lemma.absent.len());
    }
    count
}

// A lemma passes on the lists of those that it uses, so many lemmas list far more than they save.
#[test]
fn lemmas_that_list_more_than_they_save_stay_in_line(rt: HostRuntime) {
    let alloc = rt.alloc();
    let corner = six_points(&rt, alloc, Colour::Black);
    let shared = found(&rt, alloc, &corner, 10_000);
    let all = listed(&rt, alloc, &corner, &shared, ALL);
    let best = listed(&rt, alloc, &corner, &shared, saving(Saving::Half));
    expect_that(&rt, best < all);
}

// Whether an earlier proof is of the same state.
fn is_proved_before(proofs: &Proofs, place: usize) -> bool {
    let Some(proof) = proofs.at(place) else {
        return false;
    };
    for earlier in 0..place {
        if let Some(other) = proofs.at(earlier) {
            if other.key() == proof.key() {
                return true;
            }
        }
    }
    false
}

// How many states are proved.
fn proved_states(proofs: &Proofs) -> u64 {
    let mut states: u64 = 0;
    for place in 0..proofs.len() {
        if !is_proved_before(proofs, place) {
            states = states.saturating_add(1);
        }
    }
    states
}

// Each state of an answer was expanded, and each expansion is a step, even for states that live by their shape and are played out.
// As many steps as the answer took find it again, and one fewer does not.
#[test]
fn each_state_of_an_answer_is_a_step(rt: HostRuntime) {
    let alloc = rt.alloc();
    for mover in [Colour::Black, Colour::White] {
        let corner = six_points(&rt, alloc, mover);
        let mut left = 200_000;
        let found = prove(alloc, &corner, states(&rt, 100), Answers::First, &mut left);
        let used = 200_000u64.saturating_sub(left);
        match found {
            Ok(shared) => {
                let states = proved_states(&shared.proofs);
                expect_that(&rt, states > 20);
                expect_that(&rt, states <= used);
            }
            Err(_) => panic!(&rt; "a proof"),
        }
        expect_that(&rt, answered(&rt, alloc, &corner, used) == (None, 0));
        let too_few = answered(&rt, alloc, &corner, used.saturating_sub(1));
        expect_that(&rt, too_few == (Some(Stop::Steps), 0));
    }
}

// In a ko a proof of a state does not hold if something that it forbids has occurred, or something that it needs has not: the state
// is proved again there. The search would make claims that the checker refuses if it used the first proof again.
#[test]
fn a_state_is_proved_anew_where_its_proof_does_not_hold(rt: HostRuntime) {
    let alloc = rt.alloc();
    let texts = ["OOO.X.XO.OX.....X.XXXXX............."];
    let region = "aabacadaabbbcbdbacbcccdc";
    let corner = problem(&rt, alloc, 6, &texts, Colour::White, "aa", region);
    let shared = found(&rt, alloc, &corner, 10_000);
    let proofs = &shared.proofs;
    expect_that(&rt, proved_states(proofs) < proofs.len() as u64);
    expect_that(&rt, wins(&rt, alloc, &corner, Colour::Black, 10_000) > 0);
}

// White has to live in ten points on the edge, and does not. There is a ko.
#[test]
fn ten_points_on_the_edge_are_blacks(rt: HostRuntime) {
    let alloc = rt.alloc();
    let texts = [".O...X.....OOOXXOXXXXXX............."];
    let region = "aabacadaeaabbbcbdbeb";
    let edge = problem(&rt, alloc, 6, &texts, Colour::White, "acbc", region);
    expect_that(&rt, wins(&rt, alloc, &edge, Colour::Black, 10_000) > 0);
}

// With a table of one entry, states that it forgets are searched in another order.
#[test]
fn the_table_has_an_effect(rt: HostRuntime) {
    let alloc = rt.alloc();
    let corner = six_points(&rt, alloc, Colour::Black);
    let (none, left_by_one) = settled(&rt, alloc, &corner, 1, 200_000);
    let (no_stop, left) = settled(&rt, alloc, &corner, 10_000, 200_000);
    expect_same(&rt, none, None);
    expect_same(&rt, no_stop, None);
    expect_that(&rt, left_by_one != left);
}

// Black may play at aa, at ca, or pass, and White may only pass. Both orders of Black's moves lead to one colouring, where White is
// to move. The state after White's pass there occurs only in that lemma.
#[test]
fn two_orders_of_moves_meet(rt: HostRuntime) {
    let alloc = rt.alloc();
    let texts = [".X.X.XXXX...............O"];
    let two_eyes = problem(&rt, alloc, 5, &texts, Colour::Black, "ee", "aaca");
    expect_same(&rt, wins(&rt, alloc, &two_eyes, Colour::White, 1_000), 1);
}

#[test]
fn a_capture_shares_no_state(rt: HostRuntime) {
    let alloc = rt.alloc();
    let corner = problem(&rt, alloc, 3, &["O..X....."], Colour::Black, "aa", "ba");
    expect_same(&rt, wins(&rt, alloc, &corner, Colour::Black, 1_000), 0);
}
