// How many small steps the use of a rule stands for.
ghost use Rattle.std.specs.Prelude.{◌≡◌};
ghost use Rattle.imp.specs.Laws.{Always};
ghost use Rattle.imp.specs.Rules.{adds, Adds};

use rows::derivation::Rule;

// The small steps that a rule adds to those of its premises, whatever is derived by it.
pub fn steps(rule: Rule) -> u8
    ensures value { result ≡ adds rule }
    ensures law { Always (Adds rule result) }
{
    match rule {
        Rule::Num | Rule::True | Rule::False | Rule::Skip => 0,
        Rule::Var
        | Rule::Sum
        | Rule::Prod
        | Rule::Less
        | Rule::Not
        | Rule::And
        | Rule::Assgn
        | Rule::Seq
        | Rule::IfT
        | Rule::IfF => 1,
        Rule::WhileF => 2,
        Rule::WhileT => 3,
    }
}
