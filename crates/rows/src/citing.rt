// Kinds of rows that cite earlier rows of their table, so that such a table can be screened.
ghost use Rattle.std.specs.Prelude.{◌≡◌, ℕ, ◌<◌, ◌≤◌, length, List, Option, IfSome};
ghost use Rattle.std.specs.Option.{option_copied};
ghost use Rattle.rows.specs.Citing.{longest_program, longest_derivation, syntax_cites, derivation_cites};
ghost use Rattle.std.proofs.Common.{rules};

use crate::derivation::{DerivationRow, Rule};
use crate::fields::cited;
use crate::syntax::{Kind, SyntaxRow};

// The most rows that a program and a derivation have.
pub const LONGEST_PROGRAM: usize = 1024;

pub const LONGEST_DERIVATION: usize = 2048;

pub trait Citing {
    // the length of the longest table
    ghost limit: { ℕ };

    // the rows that a row cites, first to last; None where its code is unknown or an unused field is in use
    ghost cited: { Self → Option (List ℕ) };

    fn longest() -> usize
        ensures { result ≡ limit };

    // at most three rows, since a phrase has at most three children and a rule at most three premises
    fn citations(&self) -> Option<&[u16]>
        ensures same { option_copied result ≡ cited self.now }
        ensures few { IfSome result (λ rows. length rows.now ≤ 3) };

    // so that row numbers and spans fit 16 bits, and 65,535 is no row
    ghost limited: { limit < 65535 };
}

// The two impls stay apart: `longest` gives each its constant, and a trait to share the two lines of `citations` would be longer
// than both.
impl Citing for SyntaxRow {
    ghost limit = { longest_program };

    ghost cited = { syntax_cites };

    ghost limited = { Prim.search rules };

    fn longest() -> usize {
        LONGEST_PROGRAM
    }

    fn citations(&self) -> Option<&[u16]> {
        let kind = Kind::try_from(self.kind).ok()?;
        cited(&self.children, kind.children())
    }
}

impl Citing for DerivationRow {
    ghost limit = { longest_derivation };

    ghost cited = { derivation_cites };

    ghost limited = { Prim.search rules };

    fn longest() -> usize {
        LONGEST_DERIVATION
    }

    fn citations(&self) -> Option<&[u16]> {
        let rule = Rule::try_from(self.rule).ok()?;
        cited(&self.premises, rule.premises())
    }
}
