// Paths through a table of instructions, for any kind of row with a way of meeting: each function's contract is a law.
#![tactic(auto)]

ghost use Rattle.paths.specs.Exact.{JudgeIsExact};
ghost use Rattle.paths.specs.Greatest.{JudgeFindsTheGreatestRows, JudgeKeepsInvariants};
ghost use Rattle.paths.specs.Loops.{LoopsFollowTheJudgement};
ghost use Rattle.paths.specs.Admitted.{AdmitIsExact};

pub fn judge_is_exact()
    ensures { JudgeIsExact }
{}

pub fn judge_finds_the_greatest_rows()
    ensures { JudgeFindsTheGreatestRows }
{}

pub fn judge_keeps_invariants()
    ensures { JudgeKeepsInvariants }
{}

pub fn loops_follow_the_judgement()
    ensures { LoopsFollowTheJudgement }
{}

pub fn admit_is_exact()
    ensures { AdmitIsExact }
{}
