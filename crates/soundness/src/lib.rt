// The promises on runs of an admitted table: each function's contract is a law.
#![tactic(auto)]

ghost use Rattle.soundness.specs.Frames.{OpenFramesLeadToPlace0};
ghost use Rattle.soundness.specs.SmallTables.{SmallTablesComeOut};
ghost use Rattle.soundness.specs.Runs.{AdmittedRunsStayTyped, CallsLeaveWhatOneGoLeaves, EqualTotalsLeaveEqualStates};

// No answer is 60 to 63, and before and after each call every open frame holds its row and its declaration: there is one at MP,
// and from each the callers lead down to place 0.
fn promise_stands()
    ensures typed { AdmittedRunsStayTyped }
    ensures frames { OpenFramesLeadToPlace0 }
{}

// What a list of calls leaves depends on the steps that it made alone.
fn totals_stand()
    ensures one_go { CallsLeaveWhatOneGoLeaves }
    ensures law { EqualTotalsLeaveEqualStates }
{}

// The small tables come out as they should: rows, counts, registers, values and refusals.
fn small_tables_stand()
    ensures { SmallTablesComeOut }
{}
