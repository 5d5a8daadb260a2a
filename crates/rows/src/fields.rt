// The three fields of a row that may cite earlier rows of its table. They cite by number: a table stays as it came, in memory
// that the caller lends.
ghost use Rattle.std.specs.Prelude.{◌≡◌, drop};
ghost use Rattle.std.specs.Option.{option_copied};
ghost use Rattle.rows.specs.Fields.{unused, used, padded};

// What a field holds that its row does not use. A number and no `Option`: the format gives a field 16 bits.
pub const UNUSED: u16 = 65535;

// The fields, first to last.
pub type Fields = [u16; 3];

// The fields of a row that cites nothing.
pub const NO_CITATIONS: Fields = [UNUSED; 3];

// The fields of a row that cites these rows and no more; of more than three, the first three.
pub fn citing(rows: &[u16]) -> Fields
    ensures { result ≡ padded rows.now }
{
    match rows {
        [] => NO_CITATIONS,
        [a] => [*a, UNUSED, UNUSED],
        [a, b] => [*a, *b, UNUSED],
        [a, b, c, ..] => [*a, *b, *c],
    }
}

// Whether the fields after the first so many are unused. One by one and in no loop: with a loop over them screening was tried,
// and took up to twice the time.
fn unused_after(fields: &Fields, count: usize) -> bool
    ensures { result ≡ unused (drop count fields.now) }
{
    let [first, second, third] = *fields;
    match count {
        0 => first == UNUSED && second == UNUSED && third == UNUSED,
        1 => second == UNUSED && third == UNUSED,
        2 => third == UNUSED,
        _ => true,
    }
}

// The rows cited by a row that cites one for each of `parts`; none where another field is in use, or where there are more
// parts than fields.
#[tactic(auto, using(crate::proofs::Cut::used_short, crate::proofs::Cut::used_cut))]
pub fn cited<'f, T>(fields: &'f Fields, parts: &[T]) -> Option<&'f [u16]>
    ensures { option_copied result ≡ used parts.now fields.now }
{
    let rows = fields.get(..parts.len())?;
    unused_after(fields, parts.len()).then_some(rows)
}
