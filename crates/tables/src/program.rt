// Programs: tables of syntax rows that form one.
ghost use Rattle.std.specs.Prelude.{◌≡◌, refl};
ghost use Rattle.tables.specs.Forming.{formed, WellFormed};
ghost use Rattle.tables.specs.Screened.{skip_row, program_answer, ProgramLaw};
ghost use Rattle.tables.specs.SyntaxLaws.{formed_well, refused_law};
ghost use Rattle.std.proofs.Common.{rules};

use crate::fault::ProgramFault;
use crate::forming::check_rows;
use crate::table::{Listed, RawTable, Screened, TableRow};
use rows::fields::NO_CITATIONS;
use rows::syntax::{Kind, SyntaxRow};

// A table that may be a program, and one that is.
pub type RawProgram<'r, 's> = RawTable<'r, 's, SyntaxRow>;

pub type Program<'r, 's> = Screened<'r, 's, SyntaxRow>;

// The command skip. A static for each kind of row: one for both would need a type parameter.
static SKIP: [SyntaxRow; 1] = [SyntaxRow {
    kind: Kind::Skip as u8,
    children: NO_CITATIONS,
    datum: 0,
}];

#[tactic(auto, using(crate::proofs::Formed::forming_law))]
impl TableRow for SyntaxRow {
    type Fault = ProgramFault;

    ghost formed = { formed };

    ghost WellFormed = { WellFormed };

    ghost answer = { program_answer };

    ghost Law = { ProgramLaw };

    ghost skip_row = { skip_row };

    ghost built_in = { ((refl, refl, refl), refl) };

    ghost well_formed = { formed_well };

    ghost accepted = { Prim.search rules };

    ghost refused = { Prim.search rules };

    ghost refused_law = { refused_law };

    fn form(listed: &Listed<SyntaxRow>) -> Result<(), ProgramFault> {
        check_rows(listed)
    }

    fn skip() -> &'static [SyntaxRow] {
        &SKIP
    }
}
