// Whether screened syntax rows form a program: the sorts of children, the data, and a command at the end.
ghost use Rattle.std.specs.Prelude.{◌≡◌, ◌<◌, length};
ghost use Rattle.std.specs.List.{list_all, zip};
ghost use Rattle.tables.specs.Forming.{is_of, sort_at, have_sorts, formed_row, ends_in_command, formed};

use crate::fault::ProgramFault;
use crate::table::Listed;
use rows::syntax::{Kind, Sort, SyntaxRow};

// The sort of the phrase at a row.
fn sort_at(rows: &[SyntaxRow], row: usize) -> Option<Sort>
    ensures { result ≡ sort_at rows.now row }
{
    let found = rows.get(row)?;
    let kind = Kind::try_from(found.kind).ok()?;
    Some(kind.sort())
}

// Whether the phrase at a row is of this sort.
fn is_of(rows: &[SyntaxRow], row: u16, sort: Sort) -> bool
    ensures { result ≡ is_of sort (sort_at rows.now row) }
{
    sort_at(rows, row as usize) == Some(sort)
}

// Whether each child is of the sort beside it.
fn match_sorts(rows: &[SyntaxRow], children: &[u16], sorts: &[Sort]) -> bool
    ensures { result ≡ list_all (λ pair. is_of pair.0 (sort_at rows.now pair.1)) (zip sorts.now children.now) }
{
    sorts
        .iter()
        .zip(children)
        .all(|(sort, row)| is_of(rows, *row, *sort))
}

// Whether the children are of these sorts, one by one.
#[tactic(auto, using(crate::proofs::Sorted::have_sorts_zip, crate::proofs::Sorted::have_sorts_few))]
fn have_sorts(rows: &[SyntaxRow], children: &[u16], sorts: &[Sort]) -> bool
    ensures { result ≡ have_sorts rows.now sorts.now children.now }
{
    sorts.len() <= children.len() && match_sorts(rows, children, sorts)
}

// Whether row i stands among the rows as its kind asks.
fn check_row(rows: &[SyntaxRow], i: u16, row: &SyntaxRow) -> Result<(), ProgramFault>
    ensures { result ≡ formed_row rows.now i row.now }
{
    let kind = Kind::try_from(row.kind).map_err(|_| ProgramFault::ChildSort { row: i })?;
    if !have_sorts(rows, &row.children, kind.children()) {
        return Err(ProgramFault::ChildSort { row: i });
    }
    if !kind.admits(row.datum) {
        return Err(ProgramFault::Datum { row: i });
    }
    Ok(())
}

// Whether the last row is a command.
fn check_end(listed: &Listed<SyntaxRow>) -> Result<(), ProgramFault>
    ensures { result ≡ ends_in_command listed.now.rows.now }
{
    let last = (listed.rows.len() - 1) as u16;
    if !is_of(listed.rows, last, Sort::Command) {
        return Err(ProgramFault::NotCommand { row: last });
    }
    Ok(())
}

// Whether the rows form a program; a refusal is at the first row that does not stand as its kind asks.
pub(crate) fn check_rows(listed: &Listed<SyntaxRow>) -> Result<(), ProgramFault>
    ensures { result ≡ formed listed.now.rows.now }
{
    for (i, row) in listed.rows.iter().enumerate() {
        check_row(listed.rows, i as u16, row)?;
    }
    check_end(listed)
}
