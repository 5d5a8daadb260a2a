// Copies of trees, which the unrolling of a loop needs.
// By hand: a derived `Clone` was tried, and the proof did not close, since a caller learns nothing of such a copy of a tree.
ghost use Rattle.std.specs.Prelude.{◌≡◌, IfOk};
ghost use Rattle.stepping.specs.Trees.{expression_of, test_of, command_of};

use crate::tree::{Command, Expression, Test};
use std::alloc::AllocError;

// A value in a box of its own, made by the allocator of another box. The copies below call this and not the `clone` of a `Box`,
// which was tried, and the proof did not close.
fn boxed<T: Drop>(value: T, other: &Box<T>) -> Result<Box<T>, AllocError>
    ensures { IfOk result (λ b. b.value ≡ value) }
{
    Ok(Box::new(*Box::allocator(other), value)?)
}

impl Clone for Expression {
    // The same tree once more.
    ghost is_clone = { λ e copy. expression_of copy ≡ expression_of e };

    fn clone(&self) -> Result<Expression, AllocError> {
        match self {
            Expression::Numeral(n) => Ok(Expression::Numeral(*n)),
            Expression::Value(v) => Ok(Expression::Value(*v)),
            Expression::Name(x) => Ok(Expression::Name(*x)),
            Expression::Operation(operator, left, right) => {
                let left = boxed(Expression::clone(left)?, left)?;
                let right = boxed(Expression::clone(right)?, right)?;
                Ok(Expression::Operation(*operator, left, right))
            }
        }
    }
}

impl Clone for Test {
    // The same tree once more.
    ghost is_clone = { λ b copy. test_of copy ≡ test_of b };

    fn clone(&self) -> Result<Test, AllocError> {
        match self {
            Test::Truth(t) => Ok(Test::Truth(*t)),
            Test::Less(left, right) => Ok(Test::Less(left.clone()?, right.clone()?)),
            Test::Not(test) => Ok(Test::Not(boxed(Test::clone(test)?, test)?)),
            Test::And(left, right) => {
                let left = boxed(Test::clone(left)?, left)?;
                let right = boxed(Test::clone(right)?, right)?;
                Ok(Test::And(left, right))
            }
        }
    }
}

impl Clone for Command {
    // The same tree once more.
    ghost is_clone = { λ c copy. command_of copy ≡ command_of c };

    fn clone(&self) -> Result<Command, AllocError> {
        match self {
            Command::Skip => Ok(Command::Skip),
            Command::Assign(name, value) => Ok(Command::Assign(*name, value.clone()?)),
            Command::Sequence(first, second) => {
                let first = boxed(Command::clone(first)?, first)?;
                let second = boxed(Command::clone(second)?, second)?;
                Ok(Command::Sequence(first, second))
            }
            Command::If(test, yes, no) => {
                let test = test.clone()?;
                let yes = boxed(Command::clone(yes)?, yes)?;
                let no = boxed(Command::clone(no)?, no)?;
                Ok(Command::If(test, yes, no))
            }
            Command::While(test, body) => {
                let test = test.clone()?;
                let body = boxed(Command::clone(body)?, body)?;
                Ok(Command::While(test, body))
            }
        }
    }
}
