// How judge and admit answer, and what is left of what judge is lent.
ghost use Rattle.std.specs.Prelude.{◌≡◌, length, take, drop, count_by, nat_eq, IfOk};
ghost use Rattle.rules.specs.Lookups.{contents_of};
ghost use Rattle.judge.specs.Admission.{admitted};
ghost use Rattle.judge.specs.Handing.{meanings};
ghost use Rattle.judge.specs.Judgement.{answered, judged};
ghost use Rattle.admit.specs.Admissions.{rows_for};
ghost use Rattle.rows.specs.Rows.{is_row, equal_records, empty_row};
ghost use Rattle.verdicts.specs.Outcomes.{number_of, place_of, rows_left, places_left, rows_before};

use crate::case::Change;
use admit::admit;
use judge::judge;
use rows::row::Row;
use rules::fault::TableFault;
use sheet::table::Table;
use std::alloc::{AllocError, Global};

// Counts of a lent list: of what it has for the instructions, and of the rest.
#[derive(Clone, Copy, Drop)]
pub struct Left {
    pub own: usize,
    pub rest: usize,
}

#[derive(Clone, Copy, Drop)]
pub struct Judged {
    pub answer: Result<usize, TableFault>,
    pub rows: Left, // the own that are rows, the rest that are as before
    pub places: Left, // the own that are 0, the rest that are as before
}

// 0 where there is none.
pub(crate) fn number(fault: Option<TableFault>) -> u8
    ensures { result ≡ number_of fault }
{
    fault.map_or(0, TableFault::number)
}

impl Judged {
    // The count of instructions with rows, or the procedure or instruction refused.
    pub(crate) fn place(self) -> usize
        ensures { result ≡ place_of self.answer }
    {
        match self.answer {
            Ok(count) => count,
            Err(fault) => fault.place(),
        }
    }
}

// What every place of the work list holds before.
const PLACE: usize = 7;

fn rows_left(rows: &[Row], n: usize) -> Left
    ensures own { result.own ≡ count_by is_row (take n rows.now) }
    ensures rest { result.rest ≡ count_by (λ row. equal_records row empty_row) (drop n rows.now) }
{
    let (own, rest) = rows.split_at(n.min(rows.len()));
    Left {
        own: own.iter().filter(|row| row.is_reached()).count(),
        rest: rest.iter().filter(|row| **row == Row::empty()).count(),
    }
}

fn places_left(places: &[usize], n: usize) -> Left
    ensures own { result.own ≡ count_by (λ place. nat_eq place 0) (take n places.now) }
    ensures rest { result.rest ≡ count_by (λ place. nat_eq place 7) (drop n places.now) }
{
    let (own, rest) = places.split_at(n.min(places.len()));
    Left {
        own: own.iter().filter(|place| **place == 0).count(),
        rest: rest.iter().filter(|place| **place == PLACE).count(),
    }
}

// Judges a table with so many rows and places.
pub(crate) fn try_judge(
    heap: Global,
    table: Table<'_>,
    rows: usize,
    places: usize,
) -> Result<Judged, AllocError>
    ensures answer { IfOk result (λ o. o.answer ≡ answered (judged (contents_of table.entry) rows places)) }
    ensures rows { IfOk result (λ o. o.rows ≡ rows_left (contents_of table.entry) rows places) }
    ensures places { IfOk result (λ o. o.places ≡ places_left (contents_of table.entry) rows places) }
{
    let n = table.code.len();
    let mut lent = vec![in heap; Row::empty(); rows]?;
    let mut work = vec![in heap; PLACE; places]?;
    let answer = judge(table, &mut lent, &mut work);
    Ok(Judged {
        answer,
        rows: rows_left(&lent, n),
        places: places_left(&work, n),
    })
}

// So many rows as judge leaves them, or unreached where it refuses and past the instructions.
fn rows_before(heap: Global, table: Table<'_>, rows: usize) -> Result<Vec<Row>, AllocError>
    ensures { IfOk result (λ before. meanings before.items ≡ rows_before (contents_of table.entry) rows) }
{
    let n = table.code.len();
    let mut lent = vec![in heap; Row::unreached(); rows.max(n)]?;
    let mut work = vec![in heap; PLACE; n]?;
    // a refusal leaves them unreached
    let _ = judge(table, &mut lent, &mut work);
    lent.truncate(rows);
    Ok(lent)
}

// These rows with the changes made; one past the rows lent changes nothing.
pub(crate) fn changed_rows(
    heap: Global,
    table: Table<'_>,
    rows: usize,
    changes: &[Change],
) -> Result<Vec<Row>, AllocError> {
    let mut lent = rows_before(heap, table, rows)?;
    for change in changes {
        if let Some(row) = lent.get_mut(change.instruction) {
            *row = change.row;
        }
    }
    Ok(lent)
}

// Admits a table with these rows.
pub(crate) fn try_admit(table: Table<'_>, rows: &[Row]) -> Option<TableFault>
    ensures { result ≡ admitted (contents_of table.entry) (length rows.now) (rows_for table.entry rows.now) }
{
    admit(table, rows).err()
}
