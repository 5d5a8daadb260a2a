// The rows that the depot sent for one edge. Name 0 is x.
use rows::derivation::{DerivationRow, Rule};
use rows::syntax::{Kind, SyntaxRow};

// while x < 2 do x := 1 + 1
pub(crate) fn program() -> [SyntaxRow; 8] {
    [
        SyntaxRow::new(Kind::Name, &[], 0),
        SyntaxRow::new(Kind::Numeral, &[], 2),
        SyntaxRow::new(Kind::Less, &[0, 1], 0),
        SyntaxRow::new(Kind::Numeral, &[], 1),
        SyntaxRow::new(Kind::Numeral, &[], 1),
        SyntaxRow::new(Kind::Sum, &[3, 4], 0),
        SyntaxRow::new(Kind::Assignment, &[5], 0),
        SyntaxRow::new(Kind::While, &[2, 6], 0),
    ]
}

// Its derivation where x is 1 at first, with these premises in the last row.
fn derivation_ending(last: &[u16]) -> [DerivationRow; 12] {
    [
        DerivationRow::new(Rule::Var, 0, &[], 1),
        DerivationRow::new(Rule::Num, 1, &[], 2),
        DerivationRow::new(Rule::Less, 2, &[0, 1], 1),
        DerivationRow::new(Rule::Num, 3, &[], 1),
        DerivationRow::new(Rule::Num, 4, &[], 1),
        DerivationRow::new(Rule::Sum, 5, &[3, 4], 2),
        DerivationRow::new(Rule::Assgn, 6, &[5], 0),
        DerivationRow::new(Rule::Var, 0, &[], 2),
        DerivationRow::new(Rule::Num, 1, &[], 2),
        DerivationRow::new(Rule::Less, 2, &[7, 8], 0),
        DerivationRow::new(Rule::WhileF, 7, &[9], 0),
        DerivationRow::new(Rule::WhileT, 7, last, 0),
    ]
}

pub(crate) fn derivation() -> [DerivationRow; 12] {
    derivation_ending(&[2, 6, 10])
}

// The loop that never ends and was taken for one that does: its last row is its own third premise.
pub(crate) fn derivation_that_cites_itself() -> [DerivationRow; 12] {
    derivation_ending(&[2, 6, 11])
}
