// A list of calls, undergone one after another.
ghost use Rattle.std.specs.Prelude.{◌≡◌, ◌+◌, ◌≤◌, ◌++◌, length, drop};
ghost use Rattle.rules.specs.Lookups.{contents_of};
ghost use Rattle.machine.specs.States.{at};
ghost use Rattle.soundness.specs.Frames.{OpenFramesLeadToPlace0};
ghost use Rattle.soundness.specs.Runs.{AdmittedRunsStayTyped, EqualTotalsLeaveEqualStates};
ghost use Rattle.soundness.specs.SmallTables.{SmallTablesComeOut};
ghost use Rattle.run.specs.Promise.{KeptOf, EqualCountsLeaveEqualStates};
ghost use Rattle.run.specs.Undergone.{One, one, told, state_after, Undergone, undergone};

use crate::answer::{Answer, Call};
use crate::fault::UndergoFault;
use crate::run::{Run, begin};
use admit::admit;
use host::host::Host;
use rows::row::Row;
use sheet::table::Table;
use store::store::Store;

fn make<S: Store, H: Host>(run: &mut Run<'_>, store: &mut S, host: &mut H, call: Call) -> Answer
    requires fits { length (S.cells store.old) ≡ run.old.regs.last + 1 }
    ensures value { ◌≡◌ {A = One} (record { answer = result; state = at run.new.regs (S.cells store.new) (H.means host.new) }) (one (contents_of run.old.passed.table) call (at run.old.regs (S.cells store.old) (H.means host.old))) }
    ensures same { run.new.passed ≡ run.old.passed }
    ensures fits { length (S.cells store.new) ≡ run.new.regs.last + 1 }
{
    match call {
        Call::Go(n) => Answer::Went(run.go(store, host, n)),
        Call::Look(place) => Answer::Looked(run.look(store, place)),
        Call::Report => Answer::Registers(run.report()),
    }
}

fn make_all<S: Store, H: Host>(
    run: &mut Run<'_>,
    store: &mut S,
    host: &mut H,
    calls: &[Call],
    answers: &mut [Answer],
)
    requires fits { length (S.cells store.old) ≡ run.old.regs.last + 1 }
    requires room { length calls.now ≤ length answers.old }
    ensures value { answers.new ≡ told (contents_of run.old.passed.table) calls.now (at run.old.regs (S.cells store.old) (H.means host.old)) ++ drop (length calls.now) answers.old }
    ensures after { at run.new.regs (S.cells store.new) (H.means host.new) ≡ state_after (contents_of run.old.passed.table) calls.now (at run.old.regs (S.cells store.old) (H.means host.old)) }
    ensures same { run.new.passed ≡ run.old.passed }
{
    // by index, since a zip with `iter_mut` does not tell what the answers end as
    for (i, call) in calls.iter().enumerate() {
        answers[i] = make(run, store, host, *call);
    }
}

// Admits the table with these rows, begins, makes each call in turn and writes its answer into its place; a refusal leaves
// everything as it was. What was undergone keeps the promise on runs, and equal counts leave equal states.
#[tactic(auto, using(crate::proofs::Undergoing::by_answers))]
pub fn undergo<'a, S: Store, H: Host>(
    table: Table<'a>,
    rows: &'a [Row],
    store: &mut S,
    host: &mut H,
    calls: &[Call],
    answers: &mut [Answer],
) -> Result<Run<'a>, UndergoFault>
    ensures value { ◌≡◌ {A = Undergone} (record { answer = result; cells = S.cells store.new; host = H.means host.new; answers = answers.new }) (undergone table.entry rows.entry calls.now (S.cells store.old) (H.means host.old) answers.old) }
    ensures kept { KeptOf table.entry rows.now (length (S.cells store.old)) (H.means host.old) calls.now result (S.cells store.new) (H.means host.new) answers.new }
    ensures law { EqualCountsLeaveEqualStates }
    ensures typed { AdmittedRunsStayTyped }
    ensures frames { OpenFramesLeadToPlace0 }
    ensures totals { EqualTotalsLeaveEqualStates }
    ensures small { SmallTablesComeOut }
{
    let passed = admit(table, rows)?;
    if answers.len() < calls.len() {
        return Err(UndergoFault::TooFewAnswers);
    }
    let mut run = begin(passed, store)?;
    make_all(&mut run, store, host, calls, answers);
    Ok(run)
}
