//! Claims that are as deep as a claim may be, right ones and wrong ones: black could take a stone at any time, and plays elsewhere
//! first.

use crate::deep::{add_count, add_line, make};
use crate::expect::expect_same;
use crate::small_problems::judged;
use cert_check::{Reject, Why};
use go_points::{Cell, Colour, Colouring, PointSet, Size, Turn, sgf_point};
use std::alloc::Global;
use std::process::Abort;
use target_game::{PlayState, Problem};

// A board: a white stone in the corner that black can take at once, and elsewhere points that white shuts in. The points where
// black plays there are given by one letter each; a group of these points that is full is taken off by its own last stone.
struct Ground {
    rows: u8,
    black: &'static [u8],
    white: &'static [u8],
    points: &'static [u8],
    moves: [&'static str; 10],
}

const SMALL: Ground = Ground {
    rows: 6,
    black: b"abbbcacb",
    white: b"aaadbcbdbebfcccddadbdcdddedfedfd",
    points: b"eafaebfbecfcaeafcecfeefeefff",
    moves: SMALL_MOVES,
};

const WIDE: Ground = Ground {
    rows: 19,
    black: b"abbbcacb",
    white: b"aaasbrcrdserfrgshrirjskrlrmamsnbnroborpapsqbqrrbrrsass",
    points: b"bscsesfshsiskslsnsosqsrsnaoaqara",
    moves: WIDE_MOVES,
};

// No colouring comes twice. They were found by a search outside this program.
const SMALL_MOVES: [&str; 10] = [
    "akgihhjjggbiihhjjgilgihhjjggciihhjjgidgihhjjggmhhiiggjheigjjhhiinklggjjhhignihjjggiimkhmgnhllgmhhngg",
    "jkkjminjllimjnhkkhigmjhiinjglljhiinggjjhhigmhkjmlnfabcdkkmggiihhjgngihhjjegfagbhhllcdmiegjfahbcknkgg",
    "iihhjgdhiggjjhnmgllhmgnhkmhneiiggjjhifajgiihhjjkiigjgibjhhigcgjjhhigeigjjhhiifggjjdbhhcggdhheggfhhac",
    "aiibfdebjcidjeifjacidajjeiifjjggibbhigcjhidgjhegihfjacjgiihagjhjgdhigihegfbdchjgjhhieiggjjaihjlkgmhh",
    "fggbabchhiiljnlidjgigjmhignjkimehhjgjgifajlkbchigihnhmldnkmjgingjjhihiflkmkljjggebnkmclnkldmnkmelnkl",
    "niimkjlimjnlimjjniihhkkglhmgnlhmgjjhikgjhnligjgniihhkgjmjkhlgihnmkgmgihhjjgfglhaahbgngmlhcgiihjhndkg",
    "ingehhkggjjhhigfagihhjjggbiihhjjgicjgiihhjjdiiggjjliihhjjgifgihhjjggmklhhiigjgimhjgnkimhnedhaggbhhjj",
    "gigjlkmlhhnkgmhelggnkmhngiihhjjlkglgnhmlgmhhnggfhhkkmcagbhiiljggihnhljmidkjgigjnkiljjhhenfcammgbhcin",
    "jeiiljjkmklinmikjgjgiihlhnkjjliiggmjjhinikgnhhjjliiggmlmjjhhiigjnigjkkhjglihjnmmgihignhjgjhlgklihihj",
    "jgnhiiggjjkihfigjjhhiimknggdbcdehhjjlgfaamgnhhbmgglhcgkhmgdifjkieaibjhicgjhfdhjgebhcgdhiiljjgnkhlgng",
];

const WIDE_MOVES: [&str; 10] = [
    "aeicgkmonnppmmhhffddbbjjggeeccaaibbianbnaoobpmamboanbdmdnncaadbmcadmcbdfafbbenfneamanfbmahmhnngbhbge",
    "ehfagahebgacchdbgbhcagbphpgmhmgahffbenfnegfgeafaeofoedfbebfcaebpfaemaobbmdnaamcbdfacbbdncaadbhdbhamg",
    "bhpaaccodgceehfpegbhbgnhogmhagnhagpbhapgbhnagboahbdapdobbcpdacmadbbcmdaacbgagodphbbcgadbjcaajbdaibha",
    "hbbgjhfgihigfjgeifohagphagohcgcepfdhcoepbfbegafbdehfheafggehagodpbhahcoendmfgcedofcehdfcbebgadhbgnch",
    "dfmagbnaahbeacbgdacpdgcphdgnchdocgdbhpgchogbhdgpchdmacbgadboacbmdachdhcbdgcnhagdbhafmpnaofpbobpeomgg",
    "ahnagbbhfgahagpehfbgbheagbnofpaeofaepfceofmcpdeobmcfdbecfnadbecpfaeahhbfagdehfbebfndgehcggmfnhmcedag",
    "fhcenafbheafddgcedhcbfdegfcegfoebfhdehfaaebgfaecchdfcgdbebcfaehdfcbdecofdegcfdahagmhpgehcgfhognhbgeh",
    "agmhdgnhbgmhfmgebnhmfgnhcaebgfaembhafbgapenfhemfdgehngfhbmcnedmcgdfcnedfjcgmojppiejdfieacfaejbfahihj",
    "bgihbgjhdgihadeafcjdbcgdgcedifchdeafgecfhjdgcedhbhaebgacfiehfjecgfhigehbjdibcjdgacbidacfdhcbdgcjhagd",
    "bhaleaclddkblcckblddkcfcfddeafaelfbbeacbcfdakaelfcbeakfbeiaebbiaaffjbbeiafbljaaibeaebbfjeaafbdeaffde",
];

fn place(colouring: &mut Colouring, letters: &[u8], colour: Colour) {
    for pair in letters.chunks(2) {
        if let Some(point) = sgf_point(colouring.size(), pair) {
            colouring.set(point, Cell::Stone(colour));
        }
    }
}

fn insert(set: &mut PointSet, size: Size, letters: &[u8]) {
    for pair in letters.chunks(2) {
        if let Some(point) = sgf_point(size, pair) {
            set.insert(point);
        }
    }
}

fn problem(alloc: Global, rt: &impl Abort, ground: &Ground) -> Problem {
    let size = Size::new(ground.rows).expect(rt, "a size");
    let mut colouring = Colouring::empty(size);
    place(&mut colouring, ground.black, Colour::Black);
    place(&mut colouring, ground.white, Colour::White);
    let mut history = Vec::new(alloc);
    history.push(colouring).expect(rt, "memory");
    let mut targets = PointSet::new();
    insert(&mut targets, size, b"aa");
    let mut region = PointSet::new();
    insert(&mut region, size, b"ba");
    insert(&mut region, size, ground.points);
    Problem::new(history, 0, Colour::Black, 0, targets, region).expect(rt, "a problem")
}

fn turn_of(size: Size, points: &[u8], code: u8) -> Turn {
    for (number, pair) in points.chunks(2).enumerate() {
        if number == code.saturating_sub(b'a') as usize {
            if let Some(point) = sgf_point(size, pair) {
                return Turn::At(point);
            }
        }
    }
    Turn::Pass
}

// Black's move elsewhere, its capture after each reply except the pass, and the pass.
fn add_round(text: &mut Vec<u8>, rt: &impl Abort, state: &mut PlayState, turn: Turn) {
    let made = turn;
    add_line(text, rt, b"play ", turn);
    make(rt, state, made);
    let mut replies = Vec::new(*text.allocator());
    let mut count = 1usize;
    let size = state.size();
    for number in 0..size.area() {
        let point = size.point_at(number);
        if state.may_move(point) {
            add_line(&mut replies, rt, b"reply ", Turn::At(point));
            if number != 1 {
                replies.extend_from_slice(b"play ba\n").expect(rt, "memory");
            }
            replies.extend_from_slice(b"won\n").expect(rt, "memory");
            count = count.saturating_add(1);
        }
    }
    add_count(text, rt, count);
    text.extend_from_slice(replies.as_slice())
        .expect(rt, "memory");
    add_line(text, rt, b"reply ", Turn::Pass);
    make(rt, state, Turn::Pass);
}

// The rounds of the moves from one on, up to another.
fn add_rounds(
    text: &mut Vec<u8>,
    rt: &impl Abort,
    state: &mut PlayState,
    ground: &Ground,
    from: usize,
    to: usize,
) {
    let mut number = 0usize;
    for line in ground.moves {
        for code in line.as_bytes() {
            if from <= number && number < to {
                let turn = turn_of(state.size(), ground.points, *code);
                add_round(text, rt, state, turn);
            }
            number = number.saturating_add(1);
        }
    }
}

fn header(ground: &Ground) -> &'static [u8] {
    if ground.rows == 6 {
        b"tsucert 1 6 B\nmain\n"
    } else {
        b"tsucert 1 19 B\nmain\n"
    }
}

fn line_feeds(text: &[u8]) -> u64 {
    let mut count = 0u64;
    for byte in text {
        if *byte == b'\n' {
            count = count.saturating_add(1);
        }
    }
    count
}

// The answer to this many rounds with these lines after them. `place` is the line that is refused, counted from the end of round
// 999.
fn check_rounds(
    rt: &impl Abort,
    alloc: Global,
    ground: &Ground,
    rounds: usize,
    last: &[u8],
    fault: Option<(u64, Why)>,
) {
    let problem = problem(alloc, rt, ground);
    let mut state = PlayState::of(alloc, &problem).expect(rt, "memory");
    let mut text = Vec::new(alloc);
    text.extend_from_slice(header(ground)).expect(rt, "memory");
    add_rounds(&mut text, rt, &mut state, ground, 0, 999);
    let before = line_feeds(text.as_slice());
    add_rounds(&mut text, rt, &mut state, ground, 999, rounds);
    text.extend_from_slice(last).expect(rt, "memory");
    let wanted = match fault {
        Some((place, why)) => Err(Reject {
            place: before.saturating_add(place),
            why,
        }),
        None => Ok(Colour::Black),
    };
    expect_same(rt, judged(alloc, &problem, text.as_slice()), wanted);
}

const TAKEN: &[u8] = b"play ba\nwon\nend\n";

#[test]
fn depth_2000_on_6_rows(rt: HostRuntime) {
    check_rounds(&rt, rt.alloc(), &SMALL, 999, TAKEN, None);
}

#[test]
fn depth_2000_on_19_rows(rt: HostRuntime) {
    check_rounds(&rt, rt.alloc(), &WIDE, 999, TAKEN, None);
}

#[test]
fn wrong_at_its_last_line_on_6_rows(rt: HostRuntime) {
    let last = b"play ba\nwon\nwon\n";
    check_rounds(
        &rt,
        rt.alloc(),
        &SMALL,
        999,
        last,
        Some((3, Why::Malformed)),
    );
}

#[test]
fn wrong_at_its_last_line_on_19_rows(rt: HostRuntime) {
    let last = b"play ba\nwon\nwon\n";
    check_rounds(&rt, rt.alloc(), &WIDE, 999, last, Some((3, Why::Malformed)));
}

// One more round: its move, its `all`, the first reply, and the answer to that reply at depth 2,001.
#[test]
fn depth_2001_on_6_rows(rt: HostRuntime) {
    check_rounds(&rt, rt.alloc(), &SMALL, 1_000, TAKEN, Some((4, Why::Limit)));
}

#[test]
fn depth_2001_on_19_rows(rt: HostRuntime) {
    check_rounds(&rt, rt.alloc(), &WIDE, 1_000, TAKEN, Some((4, Why::Limit)));
}
