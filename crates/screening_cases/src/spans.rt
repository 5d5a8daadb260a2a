// Span memory, as a case asks for it and as it is printed.
use std::alloc::Global;
use std::fmt;

// What stands where no screening has written a span. No span is so large. A number and no `Option`: the memory that is lent
// holds numbers.
const BLANK: u16 = 65535;

// A span that a table brings with it.
fn held(word: &str) -> anyhow::Result<u16> {
    Ok(word.parse::<u16>()?)
}

// The span memory of a case.
#[derive(Debug, Drop, PartialEq, Eq)]
pub(crate) enum Memory {
    // lent to a screening, which writes it
    Lent(Vec<u16>),
    // brought by a table that is not screened first
    Brought(Vec<u16>),
}

// The memory that a case asks for: `=` and spans, or how many there are to be.
pub(crate) fn read(heap: Global, memory: &str) -> anyhow::Result<Memory> {
    let Some(spans) = memory.strip_prefix("=") else {
        let count = memory.parse::<u16>()? as usize;
        return Ok(Memory::Lent(vec![in heap; BLANK; count]?));
    };
    let spans = spans.split_whitespace().map(held).try_collect(heap)?;
    Ok(Memory::Brought(spans))
}

// The most spans that are printed of a table: its last ones.
const PRINTED: usize = 14;

// A span as it is printed: a point where none is written.
#[derive(Clone, Copy)]
struct Shown(u16);

impl fmt::Display for Shown {
    fn fmt<W: fmt::Write>(&self, f: &mut fmt::Formatter<W>) -> fmt::Result {
        match self.0 {
            BLANK => f.write_str("."),
            span => write!(f, "{span}"),
        }
    }
}

// Span memory as it is printed: its last spans, each after a blank.
#[derive(Clone, Copy)]
pub(crate) struct Printed<'s>(pub(crate) &'s [u16]);

impl fmt::Display for Printed<'_> {
    fn fmt<W: fmt::Write>(&self, f: &mut fmt::Formatter<W>) -> fmt::Result {
        let Printed(spans) = *self;
        for span in spans.iter().skip(spans.len().saturating_sub(PRINTED)) {
            write!(f, " {}", Shown(*span))?;
        }
        Ok(())
    }
}
