// The cells with which a run begins.
ghost use Rattle.std.specs.Prelude.{◌≡◌, ◌≤◌, ◌++◌, length, drop, replicate};
ghost use Rattle.store.specs.Cells.{clean};
ghost use Rattle.machine.specs.Runs.{begun_cells};

use reads::cells::put_at;
use store::cell::Cell;
use store::store::Store;

// The first n cells become this one.
fn fill<S: Store>(store: &mut S, n: u32, cell: Cell)
    requires { n ≤ length (S.cells store.old) }
    ensures { S.cells store.new ≡ replicate n (clean cell) ++ drop n (S.cells store.old) }
{
    for i in 0..n {
        put_at(store, i, cell);
    }
}

// Five marks with 0, and the others free.
pub(crate) fn clear<S: Store>(store: &mut S, n: u32)
    requires whole { n ≡ length (S.cells store.old) }
    requires wide { 5 ≤ n }
    ensures { S.cells store.new ≡ begun_cells n }
{
    fill(store, n, Cell::Free);
    fill(store, 5, Cell::Mark(0));
}
