// Rows that a case of either kind is made of: how one is read, and the slot that a table of them fills.
use anyhow::{Context, anyhow};
use rows::derivation::DerivationRow;
use rows::fields::{Fields, NO_CITATIONS, UNUSED};
use rows::syntax::SyntaxRow;
use screening::fault::{Fault, Refusal};
use screening::screen;
use std::alloc::Global;
use std::fmt;
use std::str::{FromStr, SplitWhitespace};
use tables::table::{RawTable, Screened, TableRow};

// The words that say a row, as row number `at` of its table.
#[derive(Drop)]
pub(crate) struct RowText<'t> {
    words: SplitWhitespace<'t>,
    at: u16,
}

impl RowText<'_> {
    // The number that is the next word.
    fn number<N: FromStr>(&mut self, missing: &'static str) -> anyhow::Result<N>
    where
        anyhow::Error: From<N::Err>,
    {
        Ok(self.words.next().context(missing)?.parse::<N>()?)
    }

    // The field that is the next word.
    fn field(&mut self) -> anyhow::Result<u16> {
        match self.words.next().context("a field is missing")? {
            "-" => Ok(UNUSED),
            "^" => Ok(self.at.checked_sub(1).context("no row before")?),
            digits => Ok(digits.parse::<u16>()?),
        }
    }

    // The three fields that are the next words.
    fn fields(&mut self) -> anyhow::Result<Fields> {
        let mut fields = NO_CITATIONS;
        for field in &mut fields {
            *field = self.field()?;
        }
        Ok(fields)
    }

    // Nothing, where no word is left.
    fn end(mut self) -> anyhow::Result<()> {
        match self.words.next() {
            None => Ok(()),
            Some(_) => Err(anyhow!("a word too many")),
        }
    }
}

// A kind of row that cases are made of.
pub(crate) trait CaseRow: TableRow {
    // The row that the words say.
    fn read(text: &mut RowText) -> anyhow::Result<Self>;
}

impl CaseRow for SyntaxRow {
    fn read(text: &mut RowText) -> anyhow::Result<SyntaxRow> {
        Ok(SyntaxRow {
            kind: text.number("no kind")?,
            children: text.fields()?,
            datum: text.number("no datum")?,
        })
    }
}

impl CaseRow for DerivationRow {
    fn read(text: &mut RowText) -> anyhow::Result<DerivationRow> {
        Ok(DerivationRow {
            rule: text.number("no rule")?,
            syntax: text.number("no syntax row")?,
            premises: text.fields()?,
            value: text.number("no value")?,
        })
    }
}

// The row that the text says and nothing more, as row number `at` of its table.
fn read_row<R: CaseRow>(text: &str, at: u16) -> anyhow::Result<R> {
    let words = text.split_whitespace();
    let mut text = RowText { words, at };
    let row = R::read(&mut text)?;
    text.end()?;
    Ok(row)
}

// The row that the text says, so many times. It is read each time, since it may name the row before.
fn push_rows<R: CaseRow>(rows: &mut Vec<R>, text: &str, times: u16) -> anyhow::Result<()> {
    for _ in 0..times {
        let at = u16::try_from(rows.len())?;
        rows.push(read_row(text, at)?)?;
    }
    Ok(())
}

pub(crate) fn read_rows<R: CaseRow>(heap: Global, text: &str) -> anyhow::Result<Vec<R>> {
    let mut rows = Vec::new(heap);
    for row in text.split(',') {
        match row.split_once(" x ") {
            Some((one, times)) => push_rows(&mut rows, one, times.parse::<u16>()?)?,
            None if row == "none" => {}
            None => push_rows(&mut rows, row, 1)?,
        }
    }
    Ok(rows)
}

// What is answered of a table, and how many rows the slot holds afterwards.
#[derive(Clone, Copy, Debug, PartialEq, Eq)]
pub(crate) struct Outcome {
    answer: Result<(), Refusal>,
    held: usize,
}

impl fmt::Display for Outcome {
    fn fmt<W: fmt::Write>(&self, f: &mut fmt::Formatter<W>) -> fmt::Result {
        match self.answer {
            Ok(()) => write!(f, "accepted")?,
            Err(refusal) => write!(f, "refused {refusal}")?,
        }
        write!(f, ", holds {}", self.held)
    }
}

// Offers these rows with these spans to a slot. Rows and spans are two parameters here and below: see `screen`.
pub(crate) fn fill<R: TableRow>(rows: &[R], spans: &[u16]) -> Outcome {
    let mut slot = Screened::skip();
    let answer = slot
        .fill(RawTable::new(rows, spans))
        .map_err(|fault| fault.refusal());
    Outcome {
        answer,
        held: slot.rows().len(),
    }
}

// Screens a table, and offers it to a slot where that accepts it. A slot that is offered nothing holds one row.
pub(crate) fn load<R: TableRow>(rows: &[R], spans: &mut [u16]) -> Outcome {
    match screen(rows, spans) {
        Ok(()) => fill(rows, spans),
        Err(fault) => Outcome {
            answer: Err(fault.refusal()),
            held: 1,
        },
    }
}
