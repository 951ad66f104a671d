//! What the outcome of a run says about the game, stated over the definitions alone.

ghost use Rattle.tsumego.specs.Laws.{AuditIsTrue, CheckIsTrue, GtpIsTrue, OneVerdict, ProofIsTrue, SolveIsTrue, WinnerIsTrue, WithinIsTrue};

/// If a side wins the problem of a record, it wins what the record stands for, which is stated without mentioning refusals. For
/// each law below, a reader who knows what records mean has to believe no more than that.
pub fn winner_is_true()
    ensures { WinnerIsTrue }
{}

/// If `check` answers, it names a side, and that side wins the problem of the record that was read.
pub fn check_is_true()
    ensures { CheckIsTrue }
{}

/// The bytes of a claim have a verdict, and only one, since no two lines have one spelling.
pub fn one_verdict()
    ensures { OneVerdict }
{}

/// If `within` names a side, that side can force a win of the record's problem within the given number of turns.
pub fn within_is_true()
    ensures { WithinIsTrue }
{}

/// If `audit` answers, it names a side, that side wins the problem of the record that was read, and the nodes below the record's
/// problem node are an answer tree of that side.
pub fn audit_is_true()
    ensures { AuditIsTrue }
{}

/// If `solve` writes a record, it names a side, and that side wins the problem of the record that was read. What is written holds
/// the same problem, the order of its history included, with a legal answer of that side to every legal reply.
pub fn solve_is_true()
    ensures { SolveIsTrue }
{}

/// If `solve --proof` writes a claim, some side wins the problem of the record that was read. What is written holds the same
/// problem, a line feed, and a claim that names that side and is accepted.
pub fn proof_is_true()
    ensures { ProofIsTrue }
{}

/// When `gtp` has ended, each `win V` in its output names a legal turn after which the colour that was asked about wins the
/// session's problem at that time, and each `loss` means that the other side wins it.
pub fn gtp_is_true()
    ensures { GtpIsTrue }
{}
