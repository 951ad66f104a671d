//! Sources of lines: what each of them provides, whether its lines are held, walked or read.

ghost use Rattle.std.specs.Prelude.{◌≡◌, ◌+◌, ◌-◌, ◌^◌, ◌<◌, ℕ, Option, Result, None, Err, IfSome, OnSome};
ghost use Rattle.proof_cert.specs.declared.source.SourceFault.{SourceFault as Fault};
ghost use Rattle.proof_cert.specs.Lines.{Line as SpecLine};
ghost use Rattle.proof_cert.specs.Private.Source.{answer_value};
ghost use Rattle.proof_cert.specs.Given.{fault_of, lines_counted};

use crate::line::Line;
use crate::source::SourceFault;
use go_points::Size;

/// The lines of a claim, one at a time, for a board of one size.
///
/// After a fault, a source gives that fault at every later call. It need not end, and no list of its lines is kept.
pub trait NodeSource {
    /// The rows of the board.
    ghost size: { Self → ℕ };

    /// The number of the line or fault that was given last; 0 at first.
    ghost number: { Self → ℕ };

    /// The fault that was given, if there was one.
    ghost fault: { Self → Option Fault };

    /// What a call may give if no fault was given before, as a relation between the source before and after it.
    ghost gives: { Self → Result (Option SpecLine) Fault → Self → Type 0 };

    /// The next line. `None` if no line is left.
    fn next(&mut self) -> Result<Option<Line>, SourceFault>
        ensures gives { fault self.old ≡ None
            → gives self.old (answer_value (size self.old) result) self.new }
        ensures stays { IfSome (fault self.old) (λ e. result ≡ Err e) }
        ensures fault { fault self.new ≡ fault_of result }
        ensures size { size self.new ≡ size self.old }
        ensures counted { fault self.old ≡ None
            → number self.new ≡ number self.old + lines_counted result }
        ensures rests { OnSome (fault self.old) (number self.new ≡ number self.old) };

    fn size(&self) -> Size
        ensures { result ≡ size self.now };

    /// The number of the line or fault that was given last; 0 at first. A source has fewer lines than a `u64` can count.
    fn line_number(&self) -> u64
        ensures value { result ≡ number self.now }
        ensures few { fault self.now ≡ None → result < 2 ^ 64 - 1 };
}
