// Derivations: tables of rows of rules. A screened one is a tree of rules, none of which has been checked yet.
ghost use Rattle.std.specs.Prelude.{Ok, refl};
ghost use Rattle.rows.specs.Citing.{longest_derivation, derivation_cites};
ghost use Rattle.screening.specs.Spans.{SpansLaw};
ghost use Rattle.tables.specs.Screened.{skip_rule_row, derivation_answer};
ghost use Rattle.std.proofs.Common.{rules};

use crate::table::{Listed, RawTable, Screened, TableRow};
use rows::derivation::{DerivationRow, Rule};
use rows::fields::NO_CITATIONS;
use screening::fault::ScreenFault;

// A table that may list a derivation, and one that does.
pub type RawDerivation<'r, 's> = RawTable<'r, 's, DerivationRow>;

pub type Derivation<'r, 's> = Screened<'r, 's, DerivationRow>;

// The rule SKIP at syntax row 0.
static SKIP: [DerivationRow; 1] = [DerivationRow {
    rule: Rule::Skip as u8,
    syntax: 0,
    premises: NO_CITATIONS,
    value: 0,
}];

impl TableRow for DerivationRow {
    type Fault = ScreenFault;

    ghost formed = { λ _. Ok tt };

    ghost WellFormed = { λ _. Unit {0} };

    ghost answer = { derivation_answer };

    ghost Law = { SpansLaw derivation_cites longest_derivation };

    ghost skip_row = { skip_rule_row };

    ghost built_in = { ((refl, refl, refl), refl) };

    ghost well_formed = { λ rows e. tt };

    ghost accepted = { Prim.search rules };

    ghost refused = { Prim.search rules };

    ghost refused_law = { Prim.search rules };

    // A derivation has nothing to form.
    fn form(_listed: &Listed<DerivationRow>) -> Result<(), ScreenFault> {
        Ok(())
    }

    fn skip() -> &'static [DerivationRow] {
        &SKIP
    }
}
