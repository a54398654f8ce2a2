// A table judged, and run from its beginning to its end.
ghost use Rattle.std.specs.Prelude.{◌≡◌, [], length, Ok, MatchResult};
ghost use Rattle.rules.specs.Lookups.{contents_of};
ghost use Rattle.host.specs.Meanings.{meaning_of_lines};
ghost use Rattle.machine.specs.Runs.{begun, go};
ghost use Rattle.columns.specs.Verdicts.{write_verdict};
ghost use Rattle.run.specs.Answers.{finish_number};
ghost use Rattle.run.specs.Calls.{as_answer};
ghost use Rattle.pegs.specs.SetOuts.{store_cells, ran, told, run_if_right, Why};

use crate::fault::Failure;
use crate::text::joined;
use admit::{Passed, admit};
use columns::verdict::write_verdict;
use host::host::Host;
use host::lines::Lines;
use judge::judge;
use rows::row::Row;
use run::answer::Went;
use run::run::begin;
use sheet::table::Table;
use std::alloc::Global;
use store::cell::Cell;
use store::records::Records;
use store::store::Store;

// A run begins over so many cells, and goes so many steps.
const CELLS: usize = 1024;

const STEPS: u32 = 1000000;

// Goes so many steps with a passed table from its beginning. The store is long enough, so that begin refuses nothing.
fn run_over<S: Store, H: Host>(
    passed: Passed<'_>,
    store: &mut S,
    host: &mut H,
    steps: u32,
) -> Result<Went, Failure>
    requires { length (S.cells store.old) ≡ store_cells }
    ensures value { result ≡ Ok (as_answer (go (contents_of passed.entry.table) steps (begun store_cells (H.means host.old)))) }
    ensures after { H.means host.new ≡ (go (contents_of passed.entry.table) steps (begun store_cells (H.means host.old))).state.host }
{
    let mut run = begin(passed, store)?;
    Ok(run.go(store, host, steps))
}

// The verdict on a run.
#[tactic(auto, using(crate::proofs::Running::ending_told))]
fn end_line(went: Went) -> [u8; 42]
    ensures { result ≡ write_verdict (finish_number went.finish) went.count }
{
    let number = went.finish.number();
    write_verdict(u64::from(number), u64::from(went.count))
}

// Runs a passed table over cells of its own, and tells what was written and how the run came to its end.
#[tactic(auto, using(crate::proofs::Telling::is_told))]
fn run_to_end(heap: Global, passed: Passed<'_>, host: &mut Lines<'_>) -> Result<Vec<u8>, Failure>
    requires { (meaning_of_lines host.old).written ≡ [] }
    ensures { MatchResult result (λ text. text.items ≡ told (ran (contents_of passed.entry.table) (meaning_of_lines host.old))) (Why (Ok (told (ran (contents_of passed.entry.table) (meaning_of_lines host.old))))) }
{
    let mut records = vec![in heap; Cell::Free; CELLS]?;
    let mut store = Records::over(&mut records);
    let went = run_over(passed, &mut store, host, STEPS)?;
    let text = joined(heap, host.text(), &end_line(went))?;
    Ok(text)
}

// Judges a table and runs it where it is right.
pub(crate) fn run_if_right(
    heap: Global,
    table: Table<'_>,
    host: &mut Lines<'_>,
) -> Result<Vec<u8>, Failure>
    requires { (meaning_of_lines host.old).written ≡ [] }
    ensures { MatchResult result (λ text. run_if_right (contents_of table.entry) (meaning_of_lines host.old) ≡ Ok text.items) (Why (run_if_right (contents_of table.entry) (meaning_of_lines host.old))) }
{
    let n = table.code.len();
    let mut rows = vec![in heap; Row::unreached(); n]?;
    let mut places = vec![in heap; 0usize; n]?;
    judge(table, &mut rows, &mut places)?;
    let passed = admit(table, &rows)?;
    run_to_end(heap, passed, host)
}
