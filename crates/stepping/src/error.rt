// Why a step was not taken.

use std::alloc::AllocError;
use std::error::Error;
use std::fmt;

#[derive(Clone, Copy, Debug, PartialEq, Eq)]
pub enum NoStep {
    // the configuration has no next: it is at skip, or it is stuck
    NoNext,
    // the unrolling of a loop found no memory
    OutOfMemory(AllocError),
}

impl fmt::Display for NoStep {
    ghost use Rattle.std.specs.Prelude.{Some};
    ghost use Rattle.stepping.specs.Shown.{reason};

    ghost output = { λ e. Some (reason e) };

    fn fmt<W: fmt::Write>(&self, f: &mut fmt::Formatter<W>) -> fmt::Result {
        match self {
            NoStep::NoNext => f.write_str("no next configuration"),
            NoStep::OutOfMemory(_) => f.write_str("out of memory"),
        }
    }
}

impl Error for NoStep {}

impl From<AllocError> for NoStep {
    ghost use Rattle.std.specs.Prelude.{◌≡◌};
    ghost use Rattle.stepping.specs.declared.error.NoStep.TheVariants.{OutOfMemory};

    ghost from_gives = { λ refused e. e ≡ OutOfMemory refused };

    fn from(refused: AllocError) -> NoStep {
        NoStep::OutOfMemory(refused)
    }
}
