// The small steps of trees, in place, leftmost first. A list of numbers, one or none for each name, holds the bindings.
// The three matches on two operands stay apart: what they step and what they make differ, and a shared form is no plainer.
ghost use Rattle.std.specs.Prelude.{◌≡◌, ◌↔◌, true, IfOk, IsSome, IsNone, if◌then◌else◌};
ghost use Rattle.imp.specs.Bindings.{bind as binding};
ghost use Rattle.imp.specs.Small.{stands as stands_for, result_of};
ghost use Rattle.imp.specs.Next.{made_of, truth as truth_of, ended, next_a, next_b};
ghost use Rattle.imp.specs.Syntax.Com.{skip, seq, ifte, while as loop_of};
ghost use Rattle.stepping.specs.Exact.{exact};
ghost use Rattle.stepping.specs.Trees.{op_of, expression_of, test_of, command_of};
ghost use Rattle.stepping.specs.Steps.{bound, writable, Answered};

use crate::error::NoStep;
use crate::tree::{Command, Expression, Operator, Test};
use std::alloc::{AllocError, Global};
use std::mem;

// The number of a name, if it is bound.
fn look(numbers: &[Option<i32>], name: u8) -> Option<i32>
    ensures { result ≡ bound numbers.now name }
{
    *numbers.get(name as usize)?
}

// Binds a name that the list has; answers `None`, and changes nothing, for any other.
fn bind(numbers: &mut [Option<i32>], name: u8, value: i32) -> Option<()>
    ensures writable { IsSome result ↔ writable numbers.old name ≡ true }
    ensures bound { IsSome result → bound numbers.new ≡ binding (bound numbers.old) name value }
    ensures same { IsNone result → numbers.new ≡ numbers.old }
{
    let name = name as usize;
    if name >= numbers.len() {
        return None;
    }
    // By index: `get_mut` was tried, and the proof did not close, since its contract says nothing of the list after a write
    // through it.
    numbers[name] = Some(value);
    Some(())
}

// The sum or product, if there is one.
fn apply(operator: Operator, u: i32, v: i32) -> Option<i32>
    ensures { result ≡ result_of exact (op_of operator) u v }
{
    match operator {
        Operator::Plus => u.checked_add(v),
        Operator::Times => u.checked_mul(v),
    }
}

impl Expression {
    // The number that this stands for with no step.
    fn stands(&self) -> Option<i32>
        ensures { result ≡ stands_for exact (expression_of self.now) }
    {
        match self {
            Expression::Numeral(n) | Expression::Value(n) => Some(*n),
            _ => None,
        }
    }

    // Takes the next step, if there is one.
    fn step(&mut self, numbers: &[Option<i32>]) -> Option<()>
        ensures next { next_a exact (bound numbers.now) (expression_of self.old) ≡ made_of (λ _. expression_of self.new) result }
        ensures same { IsNone result → expression_of self.new ≡ expression_of self.old }
    {
        match self {
            Expression::Numeral(_) | Expression::Value(_) => return None,
            Expression::Name(name) => *self = Expression::Value(look(numbers, *name)?),
            Expression::Operation(operator, left, right) => match (left.stands(), right.stands()) {
                (Some(u), Some(v)) => *self = Expression::Value(apply(*operator, u, v)?),
                (Some(_), None) => right.step(numbers)?,
                (None, _) => left.step(numbers)?,
            },
        }
        Some(())
    }
}

impl Test {
    // The truth value that this is.
    fn truth(&self) -> Option<bool>
        ensures { result ≡ truth_of (test_of self.now) }
    {
        match self {
            Test::Truth(t) => Some(*t),
            _ => None,
        }
    }

    // Takes the next step, if there is one.
    fn step(&mut self, numbers: &[Option<i32>]) -> Option<()>
        ensures next { next_b exact (bound numbers.now) (test_of self.old) ≡ made_of (λ _. test_of self.new) result }
        ensures same { IsNone result → test_of self.new ≡ test_of self.old }
    {
        match self {
            Test::Truth(_) => return None,
            Test::Less(left, right) => match (left.stands(), right.stands()) {
                (Some(u), Some(v)) => *self = Test::Truth(u < v),
                (Some(_), None) => right.step(numbers)?,
                (None, _) => left.step(numbers)?,
            },
            Test::Not(test) => match test.truth() {
                Some(t) => *self = Test::Truth(!t),
                None => test.step(numbers)?,
            },
            Test::And(left, right) => match (left.truth(), right.truth()) {
                (Some(s), Some(t)) => *self = Test::Truth(s && t),
                (Some(_), None) => right.step(numbers)?,
                (None, _) => left.step(numbers)?,
            },
        }
        Some(())
    }
}

// Takes out the branch that a test picks.
fn branch(test: bool, yes: &mut Command, no: &mut Command) -> Command
    ensures { command_of result ≡ (if test then command_of yes.old else command_of no.old) }
{
    if test {
        mem::replace(yes, Command::Skip)
    } else {
        mem::replace(no, Command::Skip)
    }
}

// body; while test do body. Test and body come as two parameters, here and below, as the command holds them.
fn round(heap: Global, test: &Test, body: &Command) -> Result<Command, AllocError>
    ensures { IfOk result (λ c. command_of c ≡ seq (command_of body.now) (loop_of (test_of test.now) (command_of body.now))) }
{
    let again = Command::While(test.clone()?, Box::new(heap, body.clone()?)?);
    let body = Box::new(heap, body.clone()?)?;
    Ok(Command::Sequence(body, Box::new(heap, again)?))
}

// if test then (body; while test do body) else skip
fn unrolled(heap: Global, test: &Test, body: &Command) -> Result<Command, AllocError>
    ensures { IfOk result (λ c. command_of c ≡ ifte (test_of test.now) (seq (command_of body.now) (loop_of (test_of test.now) (command_of body.now))) skip) }
{
    let round = Box::new(heap, round(heap, test, body)?)?;
    let skip = Box::new(heap, Command::Skip)?;
    Ok(Command::If(test.clone()?, round, skip))
}

impl Command {
    // Whether nothing is left to do.
    pub fn is_skip(&self) -> bool
        ensures { result ≡ ended (command_of self.now) }
    {
        matches!(self, Command::Skip)
    }

    // Takes the next step. `numbers` has the number of each name, or none; the names that it has may be written. Only the
    // unrolling of a loop needs memory, and where that fails, or where there is no next step, nothing is changed.
    pub fn step(&mut self, heap: Global, numbers: &mut [Option<i32>]) -> Result<(), NoStep>
        ensures { Answered (command_of self.old) numbers.old result (command_of self.new) numbers.new }
    {
        match self {
            Command::Skip => return Err(NoStep::NoNext),
            Command::Assign(name, value) => match value.stands() {
                Some(v) => {
                    bind(numbers, *name, v).ok_or(NoStep::NoNext)?;
                    *self = Command::Skip;
                }
                None => value.step(numbers).ok_or(NoStep::NoNext)?,
            },
            Command::Sequence(first, second) => {
                if first.is_skip() {
                    *self = mem::replace(&mut **second, Command::Skip);
                } else {
                    first.step(heap, numbers)?;
                }
            }
            Command::If(test, yes, no) => match test.truth() {
                Some(t) => *self = branch(t, yes, no),
                None => test.step(numbers).ok_or(NoStep::NoNext)?,
            },
            Command::While(test, body) => *self = unrolled(heap, test, body)?,
        }
        Ok(())
    }
}
