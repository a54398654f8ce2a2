// The transfer function of the verifier.
ghost use Rattle.std.specs.Prelude.{◌≡◌, ℕ, [], ◌≤◌, true, false, Ok, Err, nat_le};
ghost use Rattle.rules.specs.Lookups.{contents_of, owner as owner_of, room_at};
ghost use Rattle.pile.specs.Piles.{held};
ghost use Rattle.rows.specs.Entries.{proper};
ghost use Rattle.rows.specs.Rows.{every, is_row};
ghost use Rattle.transfer.specs.declared.breach.Breach.TheVariants.{WrongStack};
ghost use Rattle.transfer.specs.Laws.{CheckedTablesFitRows, TransferStaysInside, TransferFits, TransferHandsRows};
ghost use Rattle.transfer.specs.Stacks.{cells_on, less, more, fitting};
ghost use Rattle.transfer.specs.Transfer.{handed, stack_of, has_next, stays, passed_on, transfer, outcome, SendsARow, Checked};

use crate::breach::Breach;
pub use crate::sent::Sent;
use crate::stack::Entries;
use rows::entry::Entry;
use rows::row::Row;
use rules::effects::{Effect, Gives, Way, effect_of};
use rules::lookup::{owner, room_at};
use sheet::table::Table;

// The cells of what is given.
fn cells_given(gives: Gives) -> usize
    ensures { result ≡ cells_on (more gives []) }
{
    match gives {
        Gives::Nothing => 0,
        Gives::One(_) => 1,
        Gives::Two(_) => 2,
        Gives::Mark(_) => 5,
    }
}

// Whether a stack with what is given on top of it has no more cells than the procedure allows.
// Table and number go one by one, here and below: a struct would be made in the one call that they come from.
fn fits(table: Table<'_>, n: usize, gives: Gives, stack: &Entries<'_>) -> bool
    ensures { result ≡ nat_le (cells_on (more gives (held stack.now.pile))) (room_at (contents_of table.entry) n) }
{
    cells_given(gives) + stack.cells() <= room_at(table, n)
}

// The next instruction lies in the same procedure.
fn has_next(table: Table<'_>, n: usize) -> bool
    ensures { result ≡ has_next (contents_of table.entry) n }
{
    let next = n.saturating_add(1);
    next < table.code.len() && owner(table, next) == owner(table, n)
}

fn stays(table: Table<'_>, n: usize, way: Way) -> bool
    ensures { result ≡ stays (contents_of table.entry) n way }
{
    match way {
        Way::Next | Way::Fork(_) => has_next(table, n),
        _ => true,
    }
}

// The stack with what is given, as a row; a stack of at most forty cells and of proper entries is one.
fn leave(effect: Effect, stack: &mut Entries<'_>) -> Result<Sent, Breach>
    ensures value { cells_on (more effect.gives (held stack.old.pile)) ≤ 40 → fitting effect.gives ≡ true → every proper (held stack.old.pile) ≡ true → (n : ℕ) → outcome n result ≡ Ok (handed effect.way n (more effect.gives (held stack.old.pile))) }
    ensures row { SendsARow result }
{
    stack.give(effect.gives)?;
    let row = Row::pack(&stack.pile).ok_or(Breach::WrongStack)?;
    Ok(Sent {
        row,
        way: effect.way,
    })
}

// The rules are tested in the order of Breach.
fn hand_on(table: Table<'_>, n: usize, effect: Effect, row: Row) -> Result<Sent, Breach>
    requires row { is_row row ≡ true }
    ensures value { room_at (contents_of table.entry) n ≤ 40 → fitting effect.gives ≡ true → outcome n result ≡ passed_on (contents_of table.entry) n effect.gives effect.way (less (contents_of table.entry) (owner_of (contents_of table.entry) n) effect.takes (stack_of row)) }
    ensures row { SendsARow result }
{
    let mut places = [Entry::Mark(0); 40];
    let mut stack = Entries::over(&mut places);
    stack.load(row);
    stack.take(table, owner(table, n), effect.takes)?;
    if !fits(table, n, effect.gives, &stack) {
        return Err(Breach::StackTooHigh);
    }
    if !stays(table, n, effect.way) {
        return Err(Breach::PastTheEnd);
    }
    leave(effect, &mut stack)
}

// What instruction n does with the stack of a row. Whatever the table, the number and the row are, it answers.
// In a table that keeps the rules, stacks go to instructions of the same procedure and are rows that fit it.
#[tactic(auto, using(crate::proofs::Laws::checked_tables_fit_rows, crate::proofs::Laws::transfer_stays_inside, crate::proofs::Laws::transfer_fits, crate::proofs::Laws::transfer_hands_rows))]
pub fn transfer(table: Table<'_>, n: usize, row: Row) -> Result<Sent, Breach>
    ensures value { Checked (contents_of table.entry) → is_row row ≡ true → outcome n result ≡ transfer (contents_of table.entry) n (stack_of row) }
    ensures stray { is_row row ≡ false → result ≡ Err WrongStack }
    ensures row { SendsARow result }
    ensures table { CheckedTablesFitRows }
    ensures inside { TransferStaysInside }
    ensures fits { TransferFits }
    ensures rows { TransferHandsRows }
{
    if !row.is_reached() {
        return Err(Breach::WrongStack);
    }
    let halted = Sent {
        row,
        way: Way::Halt,
    };
    let Some(x) = table.code.get(n) else {
        return Ok(halted);
    };
    let effect = effect_of(table, n, *x);
    match effect.way {
        Way::Halt => Ok(halted),
        _ => hand_on(table, n, effect, row),
    }
}
