// Why a table is refused, and how each refusal is published.
ghost use Rattle.std.specs.Prelude.{◌≡◌, Some};
ghost use Rattle.screening.specs.Refusals.{screen_refusal};

use std::fmt;

// What is published of a refusal: its number, and the row at fault, or 0 where none is. Two numbers, since that is the form in
// which it is published.
#[derive(Clone, Copy, Debug, PartialEq, Eq)]
pub struct Refusal {
    pub number: u8,
    pub place: u16,
}

impl fmt::Display for Refusal {
    ghost use Rattle.screening.specs.Refusals.{shown};

    ghost output = { λ refusal. Some (shown refusal) };

    fn fmt<W: fmt::Write>(&self, f: &mut fmt::Formatter<W>) -> fmt::Result {
        write!(f, "{} {}", self.number, self.place)
    }
}

// Why something is refused: each reason is published as a number and a place.
pub trait Fault: Copy {
    ghost use Rattle.screening.specs.declared.fault.Refusal.{Refusal};

    ghost published: { Self → Refusal };

    // The number and the place under which the refusal is published.
    fn refusal(self) -> Refusal
        ensures { result ≡ published self };

    // The number under which the refusal is published.
    final fn number(self) -> u8
        ensures { result ≡ (published self).number }
    {
        self.refusal().number
    }

    // The row at fault, or 0 where none is.
    final fn place(self) -> u16
        ensures { result ≡ (published self).place }
    {
        self.refusal().place
    }
}

#[derive(Clone, Copy, Debug, PartialEq, Eq)]
pub enum ScreenFault {
    // no rows, or more than the longest table has
    Size,
    // fewer spans than rows
    Memory,
    // an unknown code, or an unused field that does not hold 65,535
    Malformed { row: u16 },
    // a citation that is not the row that it must be
    Citation { row: u16 },
    // the rows list several trees
    SeveralTrees { row: u16 },
}

impl Fault for ScreenFault {
    ghost published = { screen_refusal };

    fn refusal(self) -> Refusal {
        let (number, place) = match self {
            ScreenFault::Size => (21, 0),
            ScreenFault::Memory => (22, 0),
            ScreenFault::Malformed { row } => (23, row),
            ScreenFault::Citation { row } => (24, row),
            ScreenFault::SeveralTrees { row } => (25, row),
        };
        Refusal { number, place }
    }
}
