// The local rule at each instruction.
ghost use Rattle.std.specs.Prelude.{◌≡◌, ◌<◌, true, length};
ghost use Rattle.rules.specs.Lookups.{contents_of};
ghost use Rattle.paths.specs.Admitting.{admit};
ghost use Rattle.rows.specs.Rows.{is_row, meaning};
ghost use Rattle.transfer.specs.Transfer.{handed, stack_of, Checked};
ghost use Rattle.judge.specs.Flow.{entry_of, stacks, fit};
ghost use Rattle.judge.specs.Handing.{meanings, must_be};
ghost use Rattle.paths.specs.Rows.{row_at};

use crate::height::cells_of;
use judge::flaw::Flaw;
use judge::meet::must_be;
use rows::row::Row;
use rules::fault::TableFault;
use rules::lookup::{procedure_of, room_at};
use sheet::procedure::Procedure;
use sheet::table::Table;
use transfer::entrance::entry_row;
use transfer::transfer::{Sent, transfer};

// A table that keeps the rules, and the rows lent for it, one for each instruction.
// No type of its own for such a table: `transfer` takes any table, and promises more of this one.
#[derive(Clone, Copy, Drop)]
pub(crate) struct Admission<'a> {
    pub(crate) table: Table<'a>,
    pub(crate) rows: &'a [Row],
    ghost checked: { Checked (contents_of table) },
    ghost wide: { length rows.now ≡ length table.code.now },
}

impl<'a> Admission<'a> {
    ghost use Rattle.admit.specs.Admissions.{answer};
    ghost use Rattle.admit.specs.Local.{all_there, step_right, low_enough, head_right};

    // Every row, by the local rule at its instruction.
    pub(crate) fn check_rows(&self) -> Result<(), TableFault>
        ensures { result ≡ answer (admit (stacks (contents_of self.now.table)) (fit (contents_of self.now.table)) (meanings self.now.rows.now)) }
    {
        for (i, row) in self.rows.iter().enumerate() {
            self.check_head(i, *row)?;
            self.check_step(i, *row)?;
        }
        Ok(())
    }

    // A first instruction's row must be its procedure's parameters; any other must not be too high.
    fn check_head(&self, i: usize, row: Row) -> Result<(), TableFault>
        ensures { result ≡ head_right (contents_of self.now.table) i (meaning row) }
    {
        let procedure = procedure_of(self.table, i);
        if usize::from(procedure.first) == i {
            self.check_entry(procedure, i, row)
        } else {
            self.check_height(i, row)
        }
    }

    // The row with which a procedure begins must be its parameters.
    fn check_entry(&self, procedure: Procedure, i: usize, row: Row) -> Result<(), TableFault>
        ensures { result ≡ must_be (meaning row) i (entry_of (contents_of self.now.table) procedure).1 }
    {
        // more than forty parameters make no row, so the instruction has not theirs
        let parameters = entry_row(self.table, procedure).ok_or(Flaw::Differs.at(i))?;
        must_be(row, i, parameters)
    }

    // A row must not exceed the cells that the procedure's ent allows.
    fn check_height(&self, i: usize, row: Row) -> Result<(), TableFault>
        ensures { result ≡ low_enough (contents_of self.now.table) i (meaning row) }
    {
        if row.is_reached() && cells_of(row) > room_at(self.table, i) {
            Err(Flaw::TooHigh.at(i))
        } else {
            Ok(())
        }
    }

    // What instruction i does with its row must break no stack rule, and hand its successors just their rows.
    fn check_step(&self, i: usize, row: Row) -> Result<(), TableFault>
        requires { i < length self.now.rows.now }
        ensures { result ≡ step_right (contents_of self.now.table) (meanings self.now.rows.now) i (meaning row) }
    {
        if !row.is_reached() {
            return Ok(());
        }
        let sent = transfer(self.table, i, row).map_err(|breach| Flaw::Broken(breach).at(i))?;
        self.hold_all(i, sent)
    }

    // Each stack handed on must be the row of the instruction that it goes to, the label first.
    fn hold_all(&self, i: usize, sent: Sent) -> Result<(), TableFault>
        requires { i < length self.now.rows.now }
        ensures { result ≡ all_there (meanings self.now.rows.now) (handed sent.way i (stack_of sent.row)) }
    {
        let (first, second) = sent.way.successors(i);
        if let Some(j) = first {
            self.hold(j, sent.row)?;
        }
        if let Some(k) = second {
            self.hold(k, sent.row)?;
        }
        Ok(())
    }

    // Instruction j must have this row; none is lent past the end. A record may be no row, so the call asks that this is one.
    fn hold(&self, j: usize, row: Row) -> Result<(), TableFault>
        requires { is_row row ≡ true }
        ensures { result ≡ must_be (row_at (meanings self.now.rows.now) j) j (stack_of row) }
    {
        let found = self.rows.get(j).copied().unwrap_or(Row::unreached());
        must_be(found, j, row)
    }
}
