// Finding the parts of a table. Every function answers for every number, so that no caller has to keep a bound.
// By functions and no methods: a table is the sheet's type.
ghost use Rattle.std.specs.Prelude.{◌≡◌, length, take_while, nat_le};
ghost use Rattle.rules.specs.Lookups.{contents_of, procedure_at, ancestor, owner, cells_at, index, natural, enters, room_at};
ghost use Rattle.rules.specs.LookupLaws.{RoomsAreSmall};

use sheet::kind::Kind;
use sheet::procedure::Procedure;
use sheet::shape::Rule;
use sheet::table::Table;

// Procedure n; an empty one past the end.
pub fn procedure_at(table: Table<'_>, n: usize) -> Procedure
    ensures { result ≡ procedure_at (contents_of table.entry) n }
{
    table.procedures.get(n).copied().unwrap_or(Procedure::NONE)
}

// The j-th ancestor of procedure n.
pub fn ancestor(table: Table<'_>, j: usize, n: usize) -> Option<usize>
    ensures { result ≡ ancestor (contents_of table.entry) j n }
{
    let mut a = n;
    for _ in 0..j {
        if a == 0 {
            return None;
        }
        a = procedure_at(table, a).parent as usize;
    }
    Some(a)
}

// How many procedures, from the first on, begin at or below instruction n.
// By one after the other: where a table breaks the rules they need not rise, so `partition_point` would answer otherwise.
fn begun(table: Table<'_>, n: usize) -> usize
    ensures { result ≡ length (take_while (λ p. nat_le p.first n) table.entry.procedures.now) }
{
    table
        .procedures
        .iter()
        .take_while(|procedure| procedure.first as usize <= n)
        .count()
}

// The number of the procedure that instruction n lies in.
pub fn owner(table: Table<'_>, n: usize) -> usize
    ensures { result ≡ owner (contents_of table.entry) n }
{
    begun(table, n).saturating_sub(1)
}

// The procedure itself.
pub fn procedure_of(table: Table<'_>, n: usize) -> Procedure
    ensures { result ≡ procedure_at (contents_of table.entry) (owner (contents_of table.entry) n) }
{
    procedure_at(table, owner(table, n))
}

// So many data cells from this offset on, as far as the table has them.
pub fn cells_at<'a>(table: Table<'a>, offset: usize, count: u16) -> &'a [Kind]
    ensures { result.now ≡ cells_at (contents_of table.entry) offset count }
{
    let rest = table.cells.get(offset..).unwrap_or(&[]);
    rest.get(..count as usize).unwrap_or(rest)
}

// An operand as a number from 0 on, if it is one. By name: in place, the check finds no proof of the rules of operands.
pub(crate) fn index(operand: i32) -> Option<usize>
    ensures { result ≡ index operand }
{
    usize::try_from(operand).ok()
}

// A negative operand counts as 0.
pub fn natural(operand: i32) -> usize
    ensures { result ≡ natural operand }
{
    index(operand).unwrap_or(0)
}

// Whether the mnemonic of this rule is ent.
pub(crate) fn enters(rule: Rule) -> bool
    ensures { result ≡ enters rule }
{
    rule == Rule::Enter
}

// How many cells of stack the ent of the procedure of instruction n allows.
#[tactic(auto, using(crate::proofs::LookupLaws::rooms_are_small))]
pub fn room_at(table: Table<'_>, n: usize) -> usize
    ensures value { result ≡ room_at (contents_of table.entry) n }
    ensures law { RoomsAreSmall }
{
    let first = procedure_of(table, n).first as usize;
    match table.code.get(first) {
        Some(x) if enters(x.mnemonic.shape().rule) => natural(x.p),
        _ => 0,
    }
}
