// How a walk came out.
use std::fmt;

#[derive(Clone, Copy, Debug, PartialEq, Eq)]
pub(crate) enum Outcome {
    // at skip, after so many steps
    Ended(u32),
    // stuck, after so many steps
    Stuck(u32),
    // not at skip, after so many steps, all that it was allowed
    Unfinished(u32),
}

impl fmt::Display for Outcome {
    fn fmt<W: fmt::Write>(&self, f: &mut fmt::Formatter<W>) -> fmt::Result {
        match self {
            Outcome::Ended(steps) => write!(f, "ended after {steps} steps"),
            Outcome::Stuck(steps) => write!(f, "stuck after {steps} steps"),
            Outcome::Unfinished(steps) => write!(f, "not ended after {steps} steps"),
        }
    }
}
