// The trees of the language as they lie in memory.

use std::fmt;

// Sum and product.
#[derive(Clone, Copy, Debug, PartialEq, Eq)]
pub enum Operator {
    Plus,
    Times,
}

impl fmt::Display for Operator {
    ghost use Rattle.std.specs.Prelude.{Some};
    ghost use Rattle.stepping.specs.Shown.{sign};

    ghost output = { λ o. Some (sign o) };

    fn fmt<W: fmt::Write>(&self, f: &mut fmt::Formatter<W>) -> fmt::Result {
        match self {
            Operator::Plus => f.write_str("+"),
            Operator::Times => f.write_str("*"),
        }
    }
}

// What has a number.
#[derive(Debug, Drop, PartialEq, Eq)]
pub enum Expression {
    Numeral(i32),
    // what a step leaves in the place of what it evaluated; no program holds one
    Value(i32),
    Name(u8),
    Operation(Operator, Box<Expression>, Box<Expression>),
}

// What is true or false.
#[derive(Debug, Drop, PartialEq, Eq)]
pub enum Test {
    Truth(bool),
    Less(Expression, Expression),
    Not(Box<Test>),
    And(Box<Test>, Box<Test>),
}

// What changes bindings: a program, or what is left of one.
#[derive(Debug, Drop, PartialEq, Eq)]
pub enum Command {
    Skip,
    Assign(u8, Expression),
    Sequence(Box<Command>, Box<Command>),
    If(Test, Box<Command>, Box<Command>),
    While(Test, Box<Command>),
}
