// Screens the tables that standard input has, one to a line, and prints what is answered of each and the spans it leaves.
// A line has four parts with semicolons between: a title; `program` or `table`; the memory; the rows, commas between.
// The memory is the number of spans to lend to a screening, or `=` and the spans of a table that is not screened first.
// A row is its five or six numbers in the order of its fields: `-` is a field that is not used, `^` the row before, and
// `x N` after a row repeats it.
#![tactic(auto)]

mod case;
mod spans;

use anyhow::{Context, anyhow};
use case::CaseRow;
use rows::derivation::DerivationRow;
use rows::syntax::SyntaxRow;
use spans::{Memory, Printed};

// Prints what is answered of a table, the rows that the slot holds afterwards, and the spans.
fn print_table<R: CaseRow>(
    rt: &HostRuntime,
    title: &str,
    memory: &str,
    text: &str,
) -> anyhow::Result<()> {
    let rows = case::read_rows::<R>(rt.alloc(), text)?;
    let (outcome, spans) = match spans::read(rt.alloc(), memory)? {
        Memory::Lent(mut spans) => (case::load(&rows, &mut spans), spans),
        Memory::Brought(spans) => (case::fill(&rows, &spans), spans),
    };
    println!(rt; "{title}: {outcome}, spans{}", Printed(&spans))?;
    Ok(())
}

fn print_line(rt: &HostRuntime, line: &str) -> anyhow::Result<()> {
    let (title, rest) = line.split_once("; ").context("no title")?;
    let (part, rest) = rest.split_once("; ").context("no part")?;
    let (memory, rows) = rest.split_once("; ").context("no memory")?;
    // the word picks the type of the rows, and a closure cannot pick a type
    match part {
        "program" => print_table::<SyntaxRow>(rt, title, memory, rows),
        "table" => print_table::<DerivationRow>(rt, title, memory, rows),
        _ => Err(anyhow!("neither a program nor a table")),
    }
}

fn run(rt: &HostRuntime) -> anyhow::Result<()> {
    for line in rt.lines(rt.alloc()) {
        let line = line?;
        print_line(rt, line.as_str())?;
    }
    Ok(())
}

fn main(rt: HostRuntime) -> anyhow::Result<()> {
    run(&rt)
}
