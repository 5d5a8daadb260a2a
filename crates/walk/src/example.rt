// The programs that are walked.
ghost use Rattle.std.specs.Prelude.{◌≡◌, IfOk};
ghost use Rattle.stepping.specs.Trees.{command_of};
ghost use Rattle.walk.specs.Example.{one_round, OneRoundCounts, both_sides, endless};

use std::alloc::{AllocError, Global};
use stepping::tree::{Command, Expression, Operator, Test};

// The texts of the names, in their order.
pub(crate) const NAMES: &[&str] = &["foo"];

// The name that is shown as foo.
const FOO: u8 = 0;

// foo := 3; while foo < 4 do foo := foo + 5
pub(crate) fn one_round(heap: Global) -> Result<Command, AllocError>
    ensures { IfOk result (λ c. command_of c ≡ one_round) }
{
    let foo = Box::new(heap, Expression::Name(FOO))?;
    let five = Box::new(heap, Expression::Numeral(5))?;
    let raise = Command::Assign(FOO, Expression::Operation(Operator::Plus, foo, five));
    let below = Test::Less(Expression::Name(FOO), Expression::Numeral(4));
    let again = Command::While(below, Box::new(heap, raise)?);
    let start = Command::Assign(FOO, Expression::Numeral(3));
    Ok(Command::Sequence(Box::new(heap, start)?, Box::new(heap, again)?))
}

// The small steps that the derivation of this run counts.
pub(crate) fn one_round_counts() -> u32
    ensures { OneRoundCounts result }
{
    14
}

// if false and foo < 0 then skip else skip
pub(crate) fn both_sides(heap: Global) -> Result<Command, AllocError>
    ensures { IfOk result (λ c. command_of c ≡ both_sides) }
{
    let left = Box::new(heap, Test::Truth(false))?;
    let below = Test::Less(Expression::Name(FOO), Expression::Numeral(0));
    let test = Test::And(left, Box::new(heap, below)?);
    let yes = Box::new(heap, Command::Skip)?;
    Ok(Command::If(test, yes, Box::new(heap, Command::Skip)?))
}

// while true do skip
pub(crate) fn endless(heap: Global) -> Result<Command, AllocError>
    ensures { IfOk result (λ c. command_of c ≡ endless) }
{
    Ok(Command::While(Test::Truth(true), Box::new(heap, Command::Skip)?))
}
