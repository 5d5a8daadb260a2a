// Screening: whether the rows of a table cite earlier rows as a tree listed in post-order does, and each row's span.
// The span of a row is the number of rows of the tree that it is the root of: 1 more than the spans of the rows it cites.
#![tactic(auto)]

pub mod fault;

ghost use Rattle.std.specs.Prelude.{◌≡◌, ◌<◌, ◌≤◌, length, take, Some, OnOk};
ghost use Rattle.screening.specs.Screening.{Bounded, before, laid, next_span, told, with_row, room_for, Fits, whole, screened};
ghost use Rattle.screening.specs.Trees.{ScreeningLaw};
ghost use Rattle.screening.specs.Spans.{held_span, confirmed, Accepted, SpansLaw};

use crate::fault::ScreenFault;
use rows::citing::Citing;

// The spans of the rows so far: no span passes its row, and there are fewer than 65,535.
#[derive(Clone, Copy)]
struct Done<'s> {
    spans: &'s [u16],
    ghost bounded: { Bounded spans.now },
    ghost short: { length spans.now < 65535 },
}

impl Done<'_> {
    // Where the tree of row `cited` begins, if that row comes right before row `next`.
    fn start_before(&self, cited: u16, next: usize) -> Option<usize>
        requires { next ≤ length self.now.spans.now }
        ensures { result ≡ before self.now.spans.now cited (Some next) }
    {
        let root = cited as usize;
        if root + 1 != next {
            return None;
        }
        Some(next - self.spans[root] as usize)
    }

    // Where the trees of the cited rows begin, if they lie side by side and end with these rows.
    #[tactic(auto, using(crate::proofs::Laid::under_laid, crate::proofs::Laid::under_push, crate::proofs::Laid::under_none, crate::proofs::Laid::before_le))]
    fn start_of(&self, cited: &[u16]) -> Option<usize>
        ensures { result ≡ laid self.now.spans.now (length self.now.spans.now) cited.now }
    {
        let mut next = self.spans.len();
        for row in cited.iter().rev() {
            next = self.start_before(*row, next)?;
        }
        Some(next)
    }

    // The span of the row after these, or why it has none.
    #[tactic(auto, using(crate::proofs::Scans::start_le, crate::proofs::Scans::span_at))]
    fn next_span<R: Citing>(&self, row: &R) -> Result<u16, ScreenFault>
        ensures { result ≡ next_span (R.cited row.now) self.now.spans.now }
    {
        let number = self.spans.len() as u16;
        let cited = row
            .citations()
            .ok_or(ScreenFault::Malformed { row: number })?;
        let start = self
            .start_of(cited)
            .ok_or(ScreenFault::Citation { row: number })?;
        Ok((self.spans.len() - start + 1) as u16)
    }

    // Whether the span that is held for the row after these is the one that it has.
    fn confirm_next<R: Citing>(&self, row: &R, held: u16) -> Result<(), ScreenFault>
        ensures { result ≡ held_span (length self.now.spans.now) held (next_span (R.cited row.now) self.now.spans.now) }
    {
        if self.next_span(row)? != held {
            return Err(ScreenFault::Citation {
                row: self.spans.len() as u16,
            });
        }
        Ok(())
    }

    // Whether the last of the spans covers them all.
    fn whole(&self) -> Result<(), ScreenFault>
        requires { 0 < length self.now.spans.now }
        ensures { result ≡ whole self.now.spans.now }
    {
        let last = self.spans.len() - 1;
        if self.spans[last] as usize != self.spans.len() {
            return Err(ScreenFault::SeveralTrees { row: last as u16 });
        }
        Ok(())
    }
}

// Writes the span of row i, if it has one.
fn write_span<R: Citing>(row: &R, i: usize, spans: &mut [u16]) -> Result<(), ScreenFault>
    requires bounded { Bounded (take i spans.old) }
    requires within { i < length spans.old }
    requires short { i < 65535 }
    ensures answer { result ≡ told (next_span (R.cited row.now) (take i spans.old)) }
    ensures memory { spans.new ≡ with_row spans.old i (next_span (R.cited row.now) (take i spans.old)) }
{
    let done = Done { spans: &spans[..i] };
    let found = done.next_span(row)?;
    spans[i] = found;
    Ok(())
}

// Whether the table has a lawful length and its spans have room.
fn room_for<R: Citing>(rows: &[R], spans: &[u16]) -> Result<(), ScreenFault>
    ensures answer { result ≡ room_for R.limit (length rows.now) (length spans.now) }
    ensures fits { OnOk result (Fits R.limit (length rows.now) (length spans.now)) }
{
    if rows.is_empty() || R::longest() < rows.len() {
        return Err(ScreenFault::Size);
    }
    if spans.len() < rows.len() {
        return Err(ScreenFault::Memory);
    }
    Ok(())
}

// Screens a table and writes the span of each row. A refusal leaves the spans of the rows before it; what lies past the
// rows is never written.
// Its loop and that of `confirm` stay apart, since one writes the spans that the other only reads: a loop for both would need a
// closure. For the same reason rows and spans are two parameters of both and of their callers: a type for the two would come
// twice. The index of the loops tells which spans are done.
#[tactic(auto, using(crate::proofs::Laws::law_of))]
pub fn screen<R: Citing>(rows: &[R], spans: &mut [u16]) -> Result<(), ScreenFault>
    ensures answer { result ≡ (screened R.cited R.limit rows.now spans.old).answer }
    ensures memory { spans.new ≡ (screened R.cited R.limit rows.now spans.old).written }
    ensures law { ScreeningLaw R.cited R.limit rows.now spans.old result spans.new }
{
    room_for(rows, spans)?;
    for (i, row) in rows.iter().enumerate() {
        write_span(row, i, spans)?;
    }
    let done = Done {
        spans: &spans[..rows.len()],
    };
    done.whole()
}

// Whether the spans held are those that screening would write for these rows, and it would accept them. For its form see
// `screen`.
#[tactic(auto, using(crate::proofs::Held::spans_law))]
pub fn confirm<R: Citing>(rows: &[R], spans: &[u16]) -> Result<(), ScreenFault>
    ensures answer { result ≡ confirmed R.cited R.limit rows.now spans.now }
    ensures fits { OnOk result (Fits R.limit (length rows.now) (length spans.now)) }
    ensures law { SpansLaw R.cited R.limit rows.now spans.now result }
    ensures accepted { OnOk result (Accepted R.cited R.limit rows.now (take (length rows.now) spans.now)) }
{
    room_for(rows, spans)?;
    for (i, row) in rows.iter().enumerate() {
        let done = Done { spans: &spans[..i] };
        done.confirm_next(row, spans[i])?;
    }
    let done = Done {
        spans: &spans[..rows.len()],
    };
    done.whole()
}
