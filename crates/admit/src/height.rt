// How high the stack of a row is.
ghost use Rattle.std.specs.Prelude.{◌≡◌, ◌<◌, ◌^◌, sum_by};
ghost use Rattle.transfer.specs.Stacks.{cells_on};
ghost use Rattle.transfer.specs.Transfer.{stack_of};
ghost use Rattle.admit.specs.Heights.{cells_at};

use rows::entry::Entry;
use rows::row::Row;

// The cells of the store that it stands for.
#[tactic(auto, using(crate::proofs::Heights::cells_are, crate::proofs::Heights::cells_fit))]
pub(crate) fn cells_of(row: Row) -> usize
    ensures { result ≡ cells_on (stack_of row) }
{
    cells_at(row.entry_bytes())
}

// The cells of the entries that these bytes stand for.
// The same sum as of a stack under judgement, but over bytes: a row keeps its entries as bytes, so there is no slice of entries to sum.
fn cells_at(bytes: &[u8]) -> usize
    requires { sum_by cells_at bytes.now < 2 ^ 64 }
    ensures { result ≡ sum_by cells_at bytes.now }
{
    bytes.iter().map(|&byte| Entry::from(byte).cells()).sum()
}
