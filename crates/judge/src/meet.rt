// Two rows meet at an instruction.
ghost use Rattle.std.specs.Prelude.{◌≡◌, true, cond, Ok, Err};
ghost use Rattle.rows.specs.Rows.{equal_records, is_row, meaning};
ghost use Rattle.transfer.specs.Transfer.{stack_of};
ghost use Rattle.judge.specs.Flaws.{flaw_at};
ghost use Rattle.judge.specs.Handing.{must_be};
ghost use Rattle.judge.specs.declared.flaw.Flaw.TheVariants.{Differs};

use crate::flaw::Flaw;
use rows::row::Row;
use rules::fault::TableFault;

// The record found at instruction j must be this row.
#[tactic(auto, using(crate::proofs::Meeting::compared))]
pub fn must_be(found: Row, j: usize, row: Row) -> Result<(), TableFault>
    ensures records { result ≡ cond (equal_records found row) (Ok tt) (Err (flaw_at Differs j)) }
    ensures rows { is_row row ≡ true → result ≡ must_be (meaning found) j (stack_of row) }
{
    if found == row {
        Ok(())
    } else {
        Err(Flaw::Differs.at(j))
    }
}
