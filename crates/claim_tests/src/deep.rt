//! A claim that is as deep as a claim may be, and one that is one deeper.

ghost use Rattle.std.specs.Prelude.{IsTrue, IfSome};
ghost use Rattle.go_points.specs.declared.Turn.TheVariants.{At};
ghost use Rattle.go_points.specs.Ply.{ply_of};
ghost use Rattle.target_game.specs.Legal.{legal};

use crate::expect::{expect_same, expect_that};
use crate::small_problems::judged;
use cert_check::{MAX_DEPTH, Reject, Why};
use go_points::{Colour, Colouring, Point, PointSet, Size, Turn, to_sgf};
use std::alloc::Global;
use std::process::Abort;
use target_game::{PlayState, Problem};

// A line of play in which the game does not end: the turns of black, with `-` for a pass and otherwise the character whose distance
// from `0` is the number of the point. White makes the first turn that is legal. It was found by a search outside this program.
pub(crate) const TURNS: [&str; 10] = [
    "CNF?P8@QSEMLBIOHRNIQFRS-MONQSRS-SN5J;K-R@--I;-PCQ-M-O-SKJ-OQ-K--KSBMH8NGCQIO--R-JP-PKQS-JO-KQPQ-QKH>",
    "GN@JRLPDSBO--MKDJHNP-QRD-RP-RHK:JMLPEOBSFCQINJLEQRSNMPM-SQM-MLK9;AH?QENSJFPAGRJNAPRMQ-SP-S---PNCR?9E",
    "J-BSIAHO-MLQMN-PRSL-Q?F8-=AOBJNIHGEKIAEPNL-MRQ>;?A:OS--BJ-H---A;KQPONL-RLQ-R@SB8AEMJOPGKND-FGODPKQSM",
    "-MO-S--OM-@JNK>QCAIDHGS-ASPNQO-MPSNP--Q?8B=OSMELHAJRFNK-BLNQJ--ONRSS--LQ9IR-SG-D>BHJOPNK-9?EFM;-C-EB",
    "JDL-QNRSP-K-RSQPP-RS@HD-9GJ?QN-ELKMFPGJQLMSR--SMRSM9@GIJNBQHDARFK3:EO?>PLC-HG?RCQPJMN---SGSRQPS--G3M",
    "=OD;FNISBAJCQSMPHPJGOHQNSN-Q--NKAH=CBOJ-PQMRSLICHSQPOLRG:KF-INJM=A-B-E--EKHRONPS-JI:L;M>Q--ACG-EAMJI",
    "HLQ8?NEK@=ROGFBP-S-NGQKJPR-OSJPOPS-O@A9?H>GRNKDQMJ:I5LE-SF-CHN>DGLMKPJN-CAS9-@;NQ?RFE-K>FSLEQMR---Q-",
    "-S-RM;?-NKLCIEHJP-FOLHRIPNS-I----RL:B8KIPG=QN@AM-SOHJ>C9-?FEDGIJFSOCH-LMNRQJO--R-Q-QR=I?AOH:PKENDL=M",
    "CBJSCDPQJN-K-ODQNK-QKKQA@>LBPMFHRGODSN@RQP-MLN-SO4@B9J=-DACHIKAH@QDKNOR-S-ROQSK@IBHF;LENDJPOM-EOLNKP",
    "S-5?9DRBJH-QF@-M-J-OQDSMNRKE9?:L->@ACPFG:S?CKJREQ-MPEJRQ-SR-JQ?IR@NESAFM-O-->DHBP--GKCLGLIF-KNR-SMQP",
];

// Two black targets that nobody can take, since they share an eye where nobody may move.
fn wide(alloc: Global, rt: &impl Abort) -> Problem {
    let size = Size::new(6).expect(rt, "a size");
    let mut history = Vec::new(alloc);
    let colouring = Colouring::from_text(size, b".X....X.............................").expect(
        rt,
        "a colouring",
    );
    history.push(colouring).expect(rt, "memory");
    let mut region = PointSet::new();
    for point in size.points() {
        region.insert(point);
    }
    let mut targets = PointSet::new();
    for (column, row) in [(1, 0), (0, 1)] {
        targets.insert(size.point(column, row).expect(rt, "a point"));
        region.remove(size.point(column, row).expect(rt, "a point"));
    }
    region.remove(size.point(0, 0).expect(rt, "a point"));
    Problem::new(history, 0, Colour::Black, 0, targets, region).expect(rt, "a problem")
}

// The first legal move.
fn first_move(state: &PlayState) -> Option<Point>
    ensures { IfSome result
        (λ p. IsTrue (legal state.now.state (ply_of state.now.state.game.size (At p)))) }
{
    let size = state.size();
    for number in 0..size.area() {
        let point = size.point_at(number);
        if state.may_move(point) {
            return Some(point);
        }
    }
    None
}

// Makes the turn, which must be a pass or a legal move in a game that is not over.
pub(crate) fn make(rt: &impl Abort, state: &mut PlayState, turn: Turn) {
    expect_that(rt, state.over().is_none());
    match turn {
        Turn::Pass => state.after(Turn::Pass).expect(rt, "memory"),
        Turn::At(point) => {
            expect_that(rt, state.size().holds(point) && state.may_move(point));
            state.after(Turn::At(point)).expect(rt, "memory");
        }
    }
}

pub(crate) fn add_line(text: &mut Vec<u8>, rt: &impl Abort, word: &[u8], turn: Turn) {
    text.extend_from_slice(word).expect(rt, "memory");
    match turn {
        Turn::Pass => text.extend_from_slice(b"pass").expect(rt, "memory"),
        Turn::At(point) => text.extend_from_slice(&to_sgf(point)).expect(rt, "memory"),
    }
    text.push(b'\n').expect(rt, "memory");
}

pub(crate) fn add_count(text: &mut Vec<u8>, rt: &impl Abort, count: usize) {
    text.extend_from_slice(b"all ").expect(rt, "memory");
    if count >= 10 {
        text.push(b'0' + (count / 10 % 10) as u8)
            .expect(rt, "memory");
    }
    text.push(b'0' + (count % 10) as u8).expect(rt, "memory");
    text.push(b'\n').expect(rt, "memory");
}

pub(crate) fn turn_of(size: Size, code: u8) -> Turn {
    let number = code.saturating_sub(b'0') as usize;
    if code == b'-' || number >= size.area() {
        return Turn::Pass;
    }
    Turn::At(size.point_at(number))
}

pub(crate) fn first_turn(state: &PlayState) -> Turn {
    match first_move(state) {
        Some(point) => Turn::At(point),
        None => Turn::Pass,
    }
}

// Adds a turn of black, and the first of the replies that are due.
fn go_down(text: &mut Vec<u8>, rt: &impl Abort, state: &mut PlayState, turn: Turn) {
    let made = turn;
    add_line(text, rt, b"play ", turn);
    make(rt, state, made);
    add_count(text, rt, state.turns().len());
    let due = first_turn(state);
    let given = due;
    add_line(text, rt, b"reply ", due);
    make(rt, state, given);
}

#[test]
fn depths_up_to_the_limit(rt: HostRuntime) {
    let problem = wide(rt.alloc(), &rt);
    let mut state = PlayState::of(rt.alloc(), &problem).expect(&rt, "memory");
    let size = state.size();
    let mut claim = Vec::new(rt.alloc());
    claim
        .extend_from_slice(b"tsucert 1 6 B\nmain\n")
        .expect(&rt, "memory");
    for turns in TURNS {
        for code in turns.as_bytes() {
            go_down(&mut claim, &rt, &mut state, turn_of(size, *code));
        }
    }
    // Three lines make two depths: depth 1 is at line 3, depth 2,000 at line 3,001, depth 2,001 at line 3,003.
    expect_same(&rt, MAX_DEPTH, 2000);
    claim.extend_from_slice(b"won\n").expect(&rt, "memory");
    let deeper = judged(rt.alloc(), &problem, claim.as_slice());
    expect_same(
        &rt,
        deeper,
        Err(Reject {
            place: 3003,
            why: Why::Limit,
        }),
    );
}
