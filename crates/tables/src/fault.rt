// Why rows are no program.
ghost use Rattle.std.specs.Prelude.{◌≡◌};
ghost use Rattle.tables.specs.Refusals.{program_refusal};
ghost use Rattle.tables.specs.declared.fault.ProgramFault.TheVariants.{Screening};

use screening::fault::{Fault, Refusal, ScreenFault};

#[derive(Clone, Copy, Debug, PartialEq, Eq)]
pub enum ProgramFault {
    // the rows do not list a tree
    Screening(ScreenFault),
    // a child is not of the sort that the row's kind asks for
    ChildSort { row: u16 },
    // a datum that the row's kind does not hold
    Datum { row: u16 },
    // the last row is not a command
    NotCommand { row: u16 },
}

impl Fault for ProgramFault {
    ghost published = { program_refusal };

    fn refusal(self) -> Refusal {
        let (number, place) = match self {
            ProgramFault::Screening(fault) => return fault.refusal(),
            ProgramFault::ChildSort { row } => (26, row),
            ProgramFault::Datum { row } => (27, row),
            ProgramFault::NotCommand { row } => (28, row),
        };
        Refusal { number, place }
    }
}

impl From<ScreenFault> for ProgramFault {
    ghost from_gives = { λ fault made. made ≡ Screening fault };

    fn from(fault: ScreenFault) -> ProgramFault {
        ProgramFault::Screening(fault)
    }
}
