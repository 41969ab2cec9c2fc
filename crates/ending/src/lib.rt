// Why a run is over, as a type of its own, and the number that each reason has.
#![tactic(auto)]

ghost use Rattle.std.specs.Prelude.{◌≡◌};
ghost use Rattle.word.specs.Said.{number_of as number_of_error};
ghost use Rattle.ending.specs.Ending.{number_of, ending_of};

use word::ArithmeticError;

// Why a run is over: the phase ended, or it never began; an instruction stopped the run; or no thread could be chosen. UnknownOp comes
// only of a table that the judge refuses, and OutOfPhase of a second start or of asking the kernel after the phase.
#[derive(Clone, Copy, Debug, PartialEq, Eq)]
pub enum Ending {
    Quiet = 0,
    UnknownOp = 4,
    Limit = 10,
    NoStart = 11,
    AssertFailed = 12,
    AssumeFailed = 13,
    ZeroDivisor = 14,
    OutOfRange = 15,
    OutOfRegion = 16,
    TooLate = 17,
    OutOfPhase = 18,
    NoInputLeft = 19,
    NoChoiceLeft = 20,
    NotRunnable = 21,
    NoBudgetLeft = 22,
    TooManyDueTimes = 23,
}

impl Ending {
    pub fn number(self) -> u8
        ensures { result ≡ number_of self }
    {
        self as u8
    }
}

// What stops an operation stops the run.
impl From<ArithmeticError> for Ending {
    ghost from_gives = { λ e r. r ≡ ending_of (number_of_error e) };

    fn from(error: ArithmeticError) -> Ending {
        match error {
            ArithmeticError::ZeroDivisor => Ending::ZeroDivisor,
            ArithmeticError::OutOfRange => Ending::OutOfRange,
        }
    }
}
