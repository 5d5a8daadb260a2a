// Tables of rows with their spans, raw and screened.
ghost use Rattle.std.specs.Prelude.{◌≡◌, ◌≤◌, ◌<◌, ℕ, List, [], ◌∷◌, length, take, OnOk, Ok, Err, Result};
ghost use Rattle.screening.specs.Spans.{confirmed, TableLaw, SpansLaw};
ghost use Rattle.screening.specs.declared.fault.ScreenFault.{ScreenFault};
ghost use Rattle.tables.specs.Screened.{Lawful, Filled};

use rows::citing::Citing;
use screening::confirm;
use screening::fault::{Fault, ScreenFault};

// Rows of a table that a screening accepted. It is known of them here that there are some, and fewer than 65,536.
#[derive(Drop)]
pub struct Listed<'r, R> {
    pub(crate) rows: &'r [R],
    ghost some: { 0 < length rows.now },
    ghost short: { length rows.now < 65536 },
}

// Rows whose tables can be screened and held: what they must form beyond a tree, and the one row of the table that is built in.
pub trait TableRow: Citing + Copy + 'static {
    // Why a table is refused.
    type Fault: Fault + From<ScreenFault>;

    // what the rows of a table form, or why they form nothing
    ghost formed: { List Self → Result (Unit {0}) Self.Fault };

    // what is known of rows that form what they must
    ghost WellFormed: { List Self → Type 0 };

    // the answer of filling a slot with these rows and spans
    ghost answer: { List Self → List ℕ → Result (Unit {0}) Self.Fault };

    // what such an answer means
    ghost Law: { List Self → List ℕ → Result (Unit {0}) Self.Fault → Type 0 };

    // the row of the table that is built in
    ghost skip_row: { Self };

    // Whether the rows form what they must, and what that says of a table that screening accepts.
    fn form(listed: &Listed<Self>) -> Result<(), Self::Fault>
        ensures answer { result ≡ formed listed.now.rows.now }
        ensures law { (spans : List ℕ) → SpansLaw Self.cited Self.limit listed.now.rows.now spans (Ok tt) → Law listed.now.rows.now spans result };

    // The rows of the table that is built in: one.
    fn skip() -> &'static [Self]
        ensures { result.now ≡ skip_row ∷ [] };

    // the table that is built in is a screened one
    ghost built_in: { Lawful Self.cited Self.limit formed (skip_row ∷ []) (1 ∷ []) };

    // rows that form what they must are well-formed
    ghost well_formed: { (rows : List Self) → formed rows ≡ Ok tt → WellFormed rows };

    // a table that screening accepts is answered by what its rows form
    ghost accepted: { (rows : List Self) (spans : List ℕ) → confirmed Self.cited Self.limit rows spans ≡ Ok tt → answer rows spans ≡ formed rows };

    // a table that screening refuses is answered by that refusal
    ghost refused: { (rows : List Self) (spans : List ℕ) (fault : ScreenFault) (made : Self.Fault) → Self.Fault.from_gives fault made → confirmed Self.cited Self.limit rows spans ≡ Err fault → answer rows spans ≡ Err made };

    // and that answer means what the refusal does
    ghost refused_law: { (rows : List Self) (spans : List ℕ) (fault : ScreenFault) (made : Self.Fault) → Self.Fault.from_gives fault made → SpansLaw Self.cited Self.limit rows spans (Err fault) → Law rows spans (Err made) };
}

// A table that may be screened, with the spans that a screening wrote for it. Rows and spans lie apart, where the caller has
// them: no table is copied.
#[derive(Drop)]
pub struct RawTable<'r, 's, R> {
    rows: &'r [R],
    spans: &'s [u16],
}

impl<'r, 's, R> RawTable<'r, 's, R> {
    // The table of these rows, with these spans.
    pub fn new(rows: &'r [R], spans: &'s [u16]) -> RawTable<'r, 's, R>
        ensures rows { result.rows.now ≡ rows.now }
        ensures spans { result.spans.now ≡ spans.now }
    {
        RawTable { rows, spans }
    }
}

// A screened table, with the span of each row.
#[derive(Drop)]
pub struct Screened<'r, 's, R: TableRow> {
    rows: &'r [R],
    spans: &'s [u16],
    ghost lawful: { Lawful R.cited R.limit R.formed rows.now spans.now },
}

static ONE: [u16; 1] = [1];

#[tactic(auto, using(screening::proofs::Held::table_law))]
impl<'r, 's, R: TableRow> Screened<'r, 's, R> {
    // The table that is built in.
    pub fn skip() -> Screened<'r, 's, R>
        ensures rows { result.rows.now ≡ R.skip_row ∷ [] }
        ensures spans { result.spans.now ≡ 1 ∷ [] }
    {
        Screened {
            rows: R::skip(),
            spans: &ONE,
        }
    }

    // Takes the table in if it has the spans of a screening and its rows form what they must; else stays as it was.
    pub fn fill(&mut self, raw: RawTable<'r, 's, R>) -> Result<(), R::Fault>
        ensures answer { result ≡ R.answer raw.entry.rows.now raw.entry.spans.now }
        ensures slot { Filled result self.old self.new self.new.rows.now self.new.spans.now raw.entry.rows.now raw.entry.spans.now }
        ensures law { R.Law raw.entry.rows.now raw.entry.spans.now result }
    {
        confirm(raw.rows, raw.spans)?;
        R::form(&Listed { rows: raw.rows })?;
        *self = Screened {
            rows: raw.rows,
            spans: &raw.spans[..raw.rows.len()],
        };
        Ok(())
    }

    // The rows: they list one tree, and form what they must.
    pub fn rows(&self) -> &'r [R]
        ensures same { result.now ≡ self.now.rows.now }
        ensures law { TableLaw R.cited R.limit result.now self.now.spans.now }
        ensures formed { R.WellFormed result.now }
    {
        self.rows
    }

    // The span of each row: the sizes of the subtrees.
    pub fn spans(&self) -> &'s [u16]
        ensures same { result.now ≡ self.now.spans.now }
        ensures law { TableLaw R.cited R.limit self.now.rows.now result.now }
    {
        self.spans
    }
}
