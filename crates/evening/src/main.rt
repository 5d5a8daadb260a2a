// One evening at the loader: an edge arrives with its cost program and the derivation of its run.
#![tactic(auto)]

mod display;
mod edge;

use display::{Lines, Shown};
use screening::fault::Fault;
use screening::screen;
use std::io;
use tables::table::{RawTable, Screened, TableRow};

// The screened table of these rows, or why there is none. Rows and spans are two parameters: see `screen`.
fn screened<'r, 's, R: TableRow>(
    rows: &'r [R],
    spans: &'s mut [u16],
) -> Result<Screened<'r, 's, R>, R::Fault> {
    screen(rows, spans)?;
    let mut slot = Screened::skip();
    slot.fill(RawTable::new(rows, spans))?;
    Ok(slot)
}

// Screens a table and shows it, or says why it is refused.
fn load<R: Shown>(rt: &impl Print, rows: &[R], spans: &mut [u16]) -> io::Result<()> {
    match screened(rows, spans) {
        Ok(table) => print!(rt; "{}", Lines(&table)),
        Err(fault) => println!(rt; "refused {} {}", R::PART, fault.refusal()),
    }
}

fn main(rt: HostRuntime) -> io::Result<()> {
    // memory for the spans of each table, as long as the longest of them; an array, since nothing of a table is allocated
    let mut spans = [0; 12];
    println!(rt; "The cost of an edge: while x < 2 do x := 1 + 1")?;
    load(&rt, &edge::program(), &mut spans)?;
    println!(rt; "")?;
    println!(rt; "Its derivation from x = 1")?;
    load(&rt, &edge::derivation(), &mut spans)?;
    println!(rt; "")?;
    println!(rt; "The same, its last row cited as its own third premise")?;
    load(&rt, &edge::derivation_that_cites_itself(), &mut spans)
}
