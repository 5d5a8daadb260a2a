// Screened tables as text.
use rows::citing::Citing;
use rows::code::UnknownCode;
use rows::derivation::{DerivationRow, Rule};
use rows::syntax::{Kind, SyntaxRow};
use std::fmt;
use tables::table::{Screened, TableRow};

// What the rows of either kind show differently.
pub(crate) trait Shown: TableRow {
    // What a table of them is called where it is refused.
    const PART: &'static str;

    // The heads of a table's columns.
    const HEAD: &'static str;

    // The columns between a row's number and its citations.
    fn fmt_code<W: fmt::Write>(&self, f: &mut fmt::Formatter<W>) -> fmt::Result;

    // The number in the column after its citations.
    fn number(&self) -> i32;
}

impl Shown for SyntaxRow {
    const PART: &'static str = "program";

    const HEAD: &'static str = "row  kind        children    datum  span";

    fn fmt_code<W: fmt::Write>(&self, f: &mut fmt::Formatter<W>) -> fmt::Result {
        write!(f, "{:<10}", Code(Kind::try_from(self.kind)))
    }

    fn number(&self) -> i32 {
        self.datum
    }
}

impl Shown for DerivationRow {
    const PART: &'static str = "table";

    const HEAD: &'static str = "row  rule     syntax row  premises    value  span";

    fn fmt_code<W: fmt::Write>(&self, f: &mut fmt::Formatter<W>) -> fmt::Result {
        write!(
            f,
            "{:<7}  {:>10}",
            Code(Rule::try_from(self.rule)),
            self.syntax
        )
    }

    fn number(&self) -> i32 {
        self.value
    }
}

// What a code stands for, shown by its name.
#[derive(Clone, Copy)]
struct Code<T>(Result<T, UnknownCode>);

impl<T: fmt::Display> fmt::Display for Code<T> {
    fn fmt<W: fmt::Write>(&self, f: &mut fmt::Formatter<W>) -> fmt::Result {
        match &self.0 {
            Ok(named) => named.fmt(f),
            Err(_) => f.pad("unknown"),
        }
    }
}

// The rows that a row cites, shown in three columns.
#[derive(Clone, Copy)]
struct Cited<'r>(&'r [u16]);

impl fmt::Display for Cited<'_> {
    fn fmt<W: fmt::Write>(&self, f: &mut fmt::Formatter<W>) -> fmt::Result {
        let mut rows = self.0.iter();
        for gap in ["", "  ", "  "] {
            match rows.next() {
                Some(row) => write!(f, "{gap}{row:>2}")?,
                None => write!(f, "{gap}  ")?,
            }
        }
        Ok(())
    }
}

// A screened table, shown with a line to a row under a line of heads.
#[derive(Drop)]
pub(crate) struct Lines<'t, 'r, 's, R: TableRow>(pub(crate) &'t Screened<'r, 's, R>);

impl<R: Shown> fmt::Display for Lines<'_, '_, '_, R> {
    fn fmt<W: fmt::Write>(&self, f: &mut fmt::Formatter<W>) -> fmt::Result {
        let Lines(table) = self;
        writeln!(f, "{}", R::HEAD)?;
        for (i, (row, span)) in table.rows().iter().zip(table.spans()).enumerate() {
            write!(f, "{i:>3}  ")?;
            row.fmt_code(f)?;
            let cited = Cited(row.citations().unwrap_or(&[]));
            let number = row.number();
            writeln!(f, "  {cited}  {number:>5}  {span:>4}")?;
        }
        Ok(())
    }
}
