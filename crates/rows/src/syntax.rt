// Syntax rows and their kinds: which code each kind has, what sort of phrase it makes, and what it is made of.
ghost use Rattle.std.specs.Prelude.{◌≡◌, Some};
ghost use Rattle.std.specs.Fmt.{padded as spaced};
ghost use Rattle.rows.specs.Code.{Decodes};
ghost use Rattle.rows.specs.Fields.{padded};
ghost use Rattle.rows.specs.Syntax.{kind_of, sort_of, children_of, admitted, kind_name};

use crate::code::UnknownCode;
use crate::fields::{Fields, citing};
use std::fmt;

// A row of a program, as it comes, with any byte for its kind: a phrase, its children by their rows, and its numeral or name.
#[derive(Clone, Copy, Debug, PartialEq, Eq)]
pub struct SyntaxRow {
    // a byte and no `Kind`: any byte may come
    pub kind: u8,
    pub children: Fields,
    pub datum: i32,
}

impl SyntaxRow {
    // The row of a phrase of this kind, over the phrases at these rows.
    pub fn new(kind: Kind, children: &[u16], datum: i32) -> SyntaxRow
        ensures kind { kind_of result.kind ≡ Some kind }
        ensures children { result.children ≡ padded children.now }
        ensures datum { result.datum ≡ datum }
    {
        SyntaxRow {
            kind: kind.into(),
            children: citing(children),
            datum,
        }
    }
}

// What a phrase of the language is: an arithmetic expression, a test or a command.
#[derive(Clone, Copy, Debug, PartialEq, Eq)]
pub enum Sort {
    Expression,
    Test,
    Command,
}

// The kinds of phrases, each with the code that stands for it.
#[derive(Clone, Copy, Debug, PartialEq, Eq)]
pub enum Kind {
    Numeral = 1,
    Name = 2,
    Sum = 3,
    Product = 4,
    True = 5,
    False = 6,
    Less = 7,
    Not = 8,
    And = 9,
    Skip = 10,
    Assignment = 11,
    Sequence = 12,
    If = 13,
    While = 14,
}

// The kind that a code stands for, if it stands for one. This and what follows is apart from that of `Rule`: see code.rt.
impl TryFrom<u8> for Kind {
    type Error = UnknownCode;

    ghost try_from_gives = { Decodes kind_of };

    fn try_from(code: u8) -> Result<Kind, UnknownCode> {
        match code {
            1 => Ok(Kind::Numeral),
            2 => Ok(Kind::Name),
            3 => Ok(Kind::Sum),
            4 => Ok(Kind::Product),
            5 => Ok(Kind::True),
            6 => Ok(Kind::False),
            7 => Ok(Kind::Less),
            8 => Ok(Kind::Not),
            9 => Ok(Kind::And),
            10 => Ok(Kind::Skip),
            11 => Ok(Kind::Assignment),
            12 => Ok(Kind::Sequence),
            13 => Ok(Kind::If),
            14 => Ok(Kind::While),
            _ => Err(UnknownCode(code)),
        }
    }
}

// The code that stands for a kind.
impl From<Kind> for u8 {
    ghost from_gives = { λ kind code. kind_of code ≡ Some kind };

    fn from(kind: Kind) -> u8 {
        kind as u8
    }
}

impl Kind {
    // The word for the phrases of this kind.
    pub fn name(self) -> &'static str
        ensures { result.now ≡ kind_name self }
    {
        match self {
            Kind::Numeral => "numeral",
            Kind::Name => "name",
            Kind::Sum => "sum",
            Kind::Product => "product",
            Kind::True => "true",
            Kind::False => "false",
            Kind::Less => "less",
            Kind::Not => "not",
            Kind::And => "and",
            Kind::Skip => "skip",
            Kind::Assignment => "assignment",
            Kind::Sequence => "sequence",
            Kind::If => "if",
            Kind::While => "while",
        }
    }

    // The sort of the phrases of this kind.
    pub fn sort(self) -> Sort
        ensures { result ≡ sort_of self }
    {
        match self {
            Kind::Numeral | Kind::Name | Kind::Sum | Kind::Product => Sort::Expression,
            Kind::True | Kind::False | Kind::Less | Kind::Not | Kind::And => Sort::Test,
            Kind::Skip | Kind::Assignment | Kind::Sequence | Kind::If | Kind::While =>
                Sort::Command,
        }
    }

    // The sorts of the children, first to last.
    pub fn children(self) -> &'static [Sort]
        ensures { result.now ≡ children_of self }
    {
        match self {
            Kind::Numeral | Kind::Name | Kind::True | Kind::False | Kind::Skip => &[],
            Kind::Sum | Kind::Product | Kind::Less => &[Sort::Expression, Sort::Expression],
            Kind::Not => &[Sort::Test],
            Kind::And => &[Sort::Test, Sort::Test],
            Kind::Assignment => &[Sort::Expression],
            Kind::Sequence => &[Sort::Command, Sort::Command],
            Kind::If => &[Sort::Test, Sort::Command, Sort::Command],
            Kind::While => &[Sort::Test, Sort::Command],
        }
    }

    // Whether a row of this kind may hold the datum: any number in a numeral, a name from 0 to 63, else 0.
    pub fn admits(self, datum: i32) -> bool
        ensures { result ≡ admitted self datum }
    {
        match self {
            Kind::Numeral => true,
            Kind::Name | Kind::Assignment => (0..64).contains(&datum),
            _ => datum == 0,
        }
    }
}

impl fmt::Display for Kind {
    ghost output = { λ kind. Some (kind_name kind) };

    ghost styled_output = { λ kind spec. Some (spaced spec (kind_name kind)) };

    fn fmt<W: fmt::Write>(&self, f: &mut fmt::Formatter<W>) -> fmt::Result {
        f.pad(self.name())
    }
}
