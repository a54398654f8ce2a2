// The verifier's call.
ghost use Rattle.std.specs.Prelude.{◌≡◌, ◌≤◌, ◌++◌, length, drop, replicate, count_by, None};
ghost use Rattle.paths.specs.Judging.{judge as judgement};
ghost use Rattle.rules.specs.Faults.{passed};
ghost use Rattle.rules.specs.Lookups.{contents_of};
ghost use Rattle.rows.specs.Rows.{is_row, no_row};
ghost use Rattle.transfer.specs.Transfer.{Checked};
ghost use Rattle.judge.specs.Flow.{stacks};
ghost use Rattle.judge.specs.Handing.{meanings, ComesTo};
ghost use Rattle.judge.specs.Judgement.{ruled, checked, followed, judged, answered, followed_rows, left_in_rows, left_in_places, RecordsLeft};
ghost use Rattle.judge.specs.Laws.{JudgeAcceptsExactlyCleanTables, JudgeCountsWhatPathsReach, JudgeLeavesWhatPathsBring, JudgeRefusesForCause};

use crate::verifier::Verifier;
use pile::Pile;
use rows::row::Row;
use rules::fault::TableFault;
use rules::operands::check_operands;
use rules::procedures::check_table;
use sheet::table::Table;

// What is refused before any path is followed and before any row is read: the rules of tables, room for every instruction,
// and the rules of operands, in this order.
pub fn check_rules(table: Table<'_>, room: usize) -> Result<(), TableFault>
    ensures { result ≡ passed (ruled (contents_of table.entry) room) }
{
    check_table(table)?;
    if room < table.code.len() {
        return Err(TableFault::TooFewPlaces);
    }
    check_operands(table)
}

// How many of these records are rows.
fn reached(rows: &[Row]) -> usize
    ensures { result ≡ count_by is_row rows.now }
{
    rows.iter().filter(|row| row.is_reached()).count()
}

// All paths, over rows without any.
fn follow(table: Table<'_>, rows: &mut [Row], places: &mut [usize]) -> Result<(), TableFault>
    requires checked { Checked (contents_of table) }
    requires blank { rows.old ≡ replicate (length table.code.now) no_row }
    requires room { length table.code.now ≤ length places.old }
    ensures after { ComesTo result (judgement (stacks (contents_of table.entry))) (meanings rows.new) }
    ensures rest { drop (length table.entry.code.now) places.new ≡ drop (length table.entry.code.now) places.old }
{
    let mut work = Pile::over(places);
    let mut verifier = Verifier {
        table,
        rows,
        work: &mut work,
    };
    verifier.enter_all()
}

// The paths of a table that keeps the rules of tables and of operands.
fn judge_checked(
    table: Table<'_>,
    rows: &mut [Row],
    places: &mut [usize],
) -> Result<usize, TableFault>
    requires checked { Checked (contents_of table) }
    requires wide { length table.code.now ≤ length rows.old }
    requires room { length table.code.now ≤ length places.old }
    ensures value { result ≡ answered (followed (judgement (stacks (contents_of table.entry)))) }
    ensures rows { meanings rows.new ≡ followed_rows (length table.entry.code.now) (followed (judgement (stacks (contents_of table.entry)))) ++ drop (length table.entry.code.now) (meanings rows.old) }
    ensures records { RecordsLeft None (followed (judgement (stacks (contents_of table.entry)))) (length table.entry.code.now) rows.old rows.new }
    ensures places { places.new ≡ replicate (length table.entry.code.now) 0 ++ drop (length table.entry.code.now) places.old }
{
    let n = table.code.len();
    rows[..n].fill(Row::unreached());
    let verdict = follow(table, &mut rows[..n], places);
    places[..n].fill(0);
    // a match and no `?`: on a refusal the rows are made unreached again
    match verdict {
        Ok(()) => Ok(reached(&rows[..n])),
        Err(fault) => {
            rows[..n].fill(Row::unreached());
            Err(fault)
        }
    }
}

// Judges a table on every path, and answers how many instructions have rows. Rows and places of the work list are lent,
// one of each for every instruction.
#[tactic(auto, using(crate::proofs::Laws::judge_leaves_what_paths_bring, crate::proofs::Laws::judge_counts_what_paths_reach, crate::proofs::Laws::judge_refuses_for_cause))]
pub fn judge(table: Table<'_>, rows: &mut [Row], places: &mut [usize]) -> Result<usize, TableFault>
    ensures value { result ≡ answered (judged (contents_of table.entry) (length rows.old) (length places.old)) }
    ensures rows { meanings rows.new ≡ left_in_rows (contents_of table.entry) (length places.old) (meanings rows.old) }
    ensures records { RecordsLeft (checked (contents_of table.entry) (length rows.old) (length places.old)) (followed (judgement (stacks (contents_of table.entry)))) (length table.entry.code.now) rows.old rows.new }
    ensures places { places.new ≡ left_in_places (contents_of table.entry) (length rows.old) places.old }
    ensures accepts { JudgeAcceptsExactlyCleanTables }
    ensures leaves { JudgeLeavesWhatPathsBring }
    ensures counts { JudgeCountsWhatPathsReach }
    ensures refuses { JudgeRefusesForCause }
{
    check_rules(table, rows.len().min(places.len()))?;
    judge_checked(table, rows, places)
}
