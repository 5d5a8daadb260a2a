// Phrases as text. A value that a step left stands in brackets, so that it is not taken for a numeral.
ghost use Rattle.std.specs.Prelude.{◌≡◌};

use std::fmt;
use std::fmt::Display;
use stepping::tree::{Command, Expression, Test};

// A name, shown by its text, or by its number if it has none.
#[derive(Drop)]
struct Name<'a> {
    names: &'a [&'a str],
    name: u8,
}

impl fmt::Display for Name<'_> {
    fn fmt<W: fmt::Write>(&self, f: &mut fmt::Formatter<W>) -> fmt::Result {
        let name = self.name;
        match self.names.get(name as usize) {
            Some(text) => write!(f, "{text}"),
            None => write!(f, "name {name}"),
        }
    }
}

// A phrase with the texts of its names, shown in parentheses where it is inside another and made of others.
#[derive(Drop)]
pub(crate) struct Named<'a, T> {
    names: &'a [&'a str],
    phrase: &'a T,
    inside: bool,
}

// That each constructor shows the phrase which it is given stands in the contracts of three: no invariant can say which it was.
impl<'a, T> Named<'a, T> {
    // A phrase that stands alone.
    pub(crate) fn new(names: &'a [&'a str], phrase: &'a T) -> Named<'a, T>
        ensures { result.phrase.now ≡ phrase.now }
    {
        Named {
            names,
            phrase,
            inside: false,
        }
    }

    // A part that needs no parentheses.
    fn part<P>(&self, phrase: &'a P) -> Named<'a, P>
        ensures { result.phrase.now ≡ phrase.now }
    {
        Named::new(self.names, phrase)
    }

    // A part that may need parentheses.
    fn inner<P>(&self, phrase: &'a P) -> Named<'a, P>
        ensures { result.phrase.now ≡ phrase.now }
    {
        Named {
            inside: true,
            ..self.part(phrase)
        }
    }

    // A name of the phrase.
    fn name(&self, name: u8) -> Name<'a> {
        Name {
            names: self.names,
            name,
        }
    }

    // What stands before the phrase and after it, where it may be made of others.
    fn parentheses(&self, is_made_of_others: bool) -> (&'static str, &'static str) {
        if self.inside && is_made_of_others {
            ("(", ")")
        } else {
            ("", "")
        }
    }
}

// A part of the phrase's own type is shown by a call of `fmt`: `write!` of it was tried, and the proof of that recursion did not
// close.

impl fmt::Display for Named<'_, Expression> {
    fn fmt<W: fmt::Write>(&self, f: &mut fmt::Formatter<W>) -> fmt::Result {
        let (open, close) = self.parentheses(matches!(self.phrase, Expression::Operation(_, _, _)));
        f.write_str(open)?;
        match self.phrase {
            Expression::Numeral(n) => write!(f, "{n}")?,
            Expression::Value(v) => write!(f, "[{v}]")?,
            Expression::Name(x) => write!(f, "{}", self.name(*x))?,
            Expression::Operation(operator, left, right) => {
                self.inner::<Expression>(left).fmt(f)?;
                write!(f, " {operator} ")?;
                self.inner::<Expression>(right).fmt(f)?;
            }
        }
        f.write_str(close)
    }
}

impl fmt::Display for Named<'_, Test> {
    fn fmt<W: fmt::Write>(&self, f: &mut fmt::Formatter<W>) -> fmt::Result {
        let (open, close) = self.parentheses(!matches!(self.phrase, Test::Truth(_)));
        f.write_str(open)?;
        match self.phrase {
            Test::Truth(t) => write!(f, "{t}")?,
            Test::Less(left, right) => write!(f, "{} < {}", self.inner(left), self.inner(right))?,
            Test::Not(test) => {
                f.write_str("not ")?;
                self.inner::<Test>(test).fmt(f)?;
            }
            Test::And(left, right) => {
                self.inner::<Test>(left).fmt(f)?;
                f.write_str(" and ")?;
                self.inner::<Test>(right).fmt(f)?;
            }
        }
        f.write_str(close)
    }
}

impl fmt::Display for Named<'_, Command> {
    fn fmt<W: fmt::Write>(&self, f: &mut fmt::Formatter<W>) -> fmt::Result {
        let is_one_word = matches!(self.phrase, Command::Skip | Command::Assign(_, _));
        let (open, close) = self.parentheses(!is_one_word);
        f.write_str(open)?;
        match self.phrase {
            Command::Skip => f.write_str("skip")?,
            Command::Assign(x, value) => write!(f, "{} := {}", self.name(*x), self.part(value))?,
            Command::Sequence(first, second) => {
                self.inner::<Command>(first).fmt(f)?;
                f.write_str("; ")?;
                self.part::<Command>(second).fmt(f)?;
            }
            Command::If(test, yes, no) => {
                write!(f, "if {} then ", self.part(test))?;
                self.inner::<Command>(yes).fmt(f)?;
                f.write_str(" else ")?;
                self.inner::<Command>(no).fmt(f)?;
            }
            Command::While(test, body) => {
                write!(f, "while {} do ", self.part(test))?;
                self.inner::<Command>(body).fmt(f)?;
            }
        }
        f.write_str(close)
    }
}
