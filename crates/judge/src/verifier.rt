// Following all paths: rows are handed on until nothing waits.
ghost use Rattle.std.specs.Prelude.{◌≡◌, ◌<◌, ◌≤◌, true, [], map, length, IsSome};
ghost use Rattle.paths.specs.Judging.{enter, judge_one, settle as settled};
ghost use Rattle.paths.specs.Lists.{All};
ghost use Rattle.paths.specs.Loops.{Ready};
ghost use Rattle.paths.specs.Rows.{row_at};
ghost use Rattle.pile.specs.Piles.{held, room};
ghost use Rattle.rows.specs.Rows.{is_row};
ghost use Rattle.rules.specs.Lookups.{contents_of};
ghost use Rattle.transfer.specs.Transfer.{handed, stack_of, Checked};
ghost use Rattle.judge.specs.Flow.{entry_of, stacks};
ghost use Rattle.judge.specs.Handing.{meanings, handed_to, handed_all, entered, Follows};

use crate::flaw::Flaw;
use crate::meet::must_be;
use pile::Pile;
use rows::row::Row;
use rules::fault::TableFault;
use sheet::procedure::Procedure;
use sheet::table::Table;
use transfer::entrance::entry_row;
use transfer::transfer::{Sent, transfer};

// A table whose paths are being followed: the rows that they brought so far, and the instructions that wait.
// No type of its own for a table that keeps the rules: `transfer` takes any table, and promises more of this one.
// The work list is lent, for a lifetime of its own: with the pile in it by value, the check loses what rows and places end as.
#[derive(Drop)]
pub(crate) struct Verifier<'a, 'b, 'c> {
    pub(crate) table: Table<'a>,
    pub(crate) rows: &'a mut [Row],
    pub(crate) work: &'b mut Pile<'c, usize>,
    ghost checked: { Checked (contents_of table) },
    ghost wide: { length rows.now ≡ length table.code.now },
    ghost roomy: { length rows.now ≤ room work.now },
    ghost ready: { ∥ Ready (meanings rows.now) (held work.now) ∥₁ },
}

impl<'a, 'b, 'c> Verifier<'a, 'b, 'c> {
    ghost use Rattle.judge.specs.Verifying.{Kept, rows_of, waiting};

    // One without a row takes it and waits; one with a row must have the same. A record may be no row, so each call asks that.
    fn hand(&mut self, j: usize, row: Row) -> Result<(), TableFault>
        requires inside { j < length self.old.rows.now }
        requires row { is_row row ≡ true }
        ensures kept { Kept self.old self.new }
        ensures after { Follows result (handed_to (rows_of self.old) (waiting self.old) j (stack_of row)) (rows_of self.new) (waiting self.new) }
    {
        let found = self.rows[j];
        if found.is_reached() {
            return must_be(found, j, row);
        }
        self.rows[j] = row;
        self.work.push(j).map_err(|_| TableFault::TooFewPlaces)
    }

    // Hands a stack to the label first, then to the next instruction.
    fn hand_on(&mut self, n: usize, sent: Sent) -> Result<(), TableFault>
        requires { All (λ h. h.0 < length self.old.rows.now) (handed sent.way n (stack_of sent.row)) }
        ensures kept { Kept self.old self.new }
        ensures after { Follows result (handed_all (handed sent.way n (stack_of sent.row)) (rows_of self.old) (waiting self.old)) (rows_of self.new) (waiting self.new) }
    {
        let (first, second) = sent.way.successors(n);
        if let Some(j) = first {
            self.hand(j, sent.row)?;
        }
        if let Some(k) = second {
            self.hand(k, sent.row)?;
        }
        Ok(())
    }

    // Instruction i, which has a row, does what it does with it.
    fn judge_one(&mut self, i: usize) -> Result<(), TableFault>
        requires { IsSome (row_at (rows_of self.old) i) }
        ensures kept { Kept self.old self.new }
        ensures after { Follows result (judge_one (stacks (contents_of self.old.table)) i (rows_of self.old) (waiting self.old)) (rows_of self.new) (waiting self.new) }
    {
        let row = self.rows[i];
        let sent = transfer(self.table, i, row).map_err(|breach| Flaw::Broken(breach).at(i))?;
        self.hand_on(i, sent)
    }

    // The top of the work list is judged until none waits.
    fn settle(&mut self) -> Result<(), TableFault>
        ensures kept { Kept self.old self.new }
        ensures after { Follows result (settled (stacks (contents_of self.old.table)) (rows_of self.old) (waiting self.old)) (rows_of self.new) (waiting self.new) }
    {
        while let Some(i) = self.work.pop() {
            self.judge_one(i)?;
        }
        Ok(())
    }

    // A procedure's parameters come to its first instruction, and what waits then is judged.
    fn enter(&mut self, procedure: Procedure) -> Result<(), TableFault>
        requires inside { procedure.first < length self.old.table.code.now }
        requires few { procedure.parameters ≤ 35 }
        requires none { waiting self.old ≡ [] }
        ensures kept { Kept self.old self.new }
        ensures after { Follows result (entered (contents_of self.old.table) procedure (rows_of self.old)) (rows_of self.new) (waiting self.new) }
    {
        // parameters within the rules make a row
        let row = entry_row(self.table, procedure).ok_or(TableFault::TooFewPlaces)?;
        self.hand(procedure.first as usize, row)?;
        self.settle()
    }

    // The procedures go in by number, each with all paths from its entry; none waits before nor after.
    pub(crate) fn enter_all(&mut self) -> Result<(), TableFault>
        requires { waiting self.old ≡ [] }
        ensures rows { self.new.rows.ghost_name ≡ self.old.rows.ghost_name }
        ensures work { self.new.work.ghost_name ≡ self.old.work.ghost_name }
        ensures places { self.new.work.now.places.ghost_name ≡ self.old.work.now.places.ghost_name }
        ensures kept { Kept self.old self.new }
        ensures after { Follows result (enter (stacks (contents_of self.old.table)) (map (entry_of (contents_of self.old.table)) self.old.table.procedures.now) (rows_of self.old)) (rows_of self.new) (waiting self.new) }
    {
        for procedure in self.table.procedures {
            self.enter(*procedure)?;
        }
        Ok(())
    }
}
