// Cells read from the store and written into it, and values read from cells.
ghost use Rattle.std.specs.Prelude.{◌≡◌};
ghost use Rattle.store.specs.Cells.{peek, put};
ghost use Rattle.machine.specs.Leaves.{working_in, mark_in, place_in, of_kind, held, writable, stacked, typed, reached};

use sheet::kind::Kind;
use sheet::place::StorePlace;
use sheet::stop::Stop;
use sheet::value::Value;
use store::cell::Cell;
use store::slot::Slot;
use store::store::Store;

// Cell x, a free one past the end.
pub fn cell_at<S: Store>(store: &S, x: u32) -> Cell
    ensures { result ≡ peek (S.cells store.now) x }
{
    store.read(Slot(x)).unwrap_or(Cell::Free)
}

// Cell x becomes this one; past the end nothing changes.
pub fn put_at<S: Store>(store: &mut S, x: u32, cell: Cell)
    ensures { S.cells store.new ≡ put (S.cells store.old) x cell }
{
    let _ = store.write(Slot(x), cell);
}

pub(crate) fn of_kind(cause: Stop, kind: Kind, x: Value) -> Result<Value, Stop>
    ensures { result ≡ of_kind cause kind x }
{
    if x.kind() == kind { Ok(x) } else { Err(cause) }
}

pub(crate) fn working_in(cell: Cell) -> Result<Value, Stop>
    ensures { result ≡ working_in cell }
{
    match cell {
        Cell::Working(x) => Ok(x),
        _ => Err(Stop::WrongCell),
    }
}

pub fn mark_in(cell: Cell) -> Result<i32, Stop>
    ensures { result ≡ mark_in cell }
{
    match cell {
        Cell::Mark(number) => Ok(number),
        _ => Err(Stop::WrongMark),
    }
}

// The number of a mark, where it is a place in the store.
pub fn place_in(cell: Cell) -> Result<u32, Stop>
    ensures { result ≡ place_in cell }
{
    u32::try_from(mark_in(cell)?).map_err(|_| Stop::WrongMark)
}

// The value of a data cell; `absent` where it is none, `other` where it has another kind.
// Two causes, here and at `writable`, and no struct: nothing else takes both.
pub fn held_in(absent: Stop, other: Stop, kind: Kind, cell: Cell) -> Result<Value, Stop>
    ensures { result ≡ held absent other kind cell }
{
    match cell {
        Cell::Data(x) => of_kind(other, kind, x),
        Cell::Blank(own) if own == kind => Err(Stop::NoValueYet),
        Cell::Blank(_) => Err(other),
        _ => Err(absent),
    }
}

// Whether a value of this kind may be written into a cell.
pub fn writable(absent: Stop, other: Stop, kind: Kind, cell: Cell) -> Result<(), Stop>
    ensures { result ≡ writable absent other kind cell }
{
    let own = match cell {
        Cell::Data(x) => x.kind(),
        Cell::Blank(own) => own,
        _ => return Err(absent),
    };
    if own == kind { Ok(()) } else { Err(other) }
}

// The working value i cells below the top. A machine in place of a store and a height would ask more of a caller.
pub fn stacked_at<S: Store>(store: &S, height: u32, i: u32) -> Result<Value, Stop>
    ensures { result ≡ stacked height i (S.cells store.now) }
{
    if i >= height {
        return Err(Stop::WrongCell);
    }
    working_in(cell_at(store, height - (i + 1)))
}

pub fn typed_at<S: Store>(store: &S, kind: Kind, height: u32, i: u32) -> Result<Value, Stop>
    ensures { result ≡ typed kind height i (S.cells store.now) }
{
    of_kind(Stop::WrongCell, kind, stacked_at(store, height, i)?)
}

// A place from 0 to SP.
pub fn reached(place: StorePlace, height: u32) -> Result<u32, Stop>
    ensures { result ≡ reached place.0 height }
{
    u32::try_from(place.0)
        .ok()
        .filter(|x| *x < height)
        .ok_or(Stop::NoDataCell)
}
