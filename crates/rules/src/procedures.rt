// The rules of tables.
ghost use Rattle.std.specs.Prelude.{◌≡◌, not, position};
ghost use Rattle.std.specs.List.{enumerate_from};
ghost use Rattle.rules.specs.Lookups.{contents_of};
ghost use Rattle.rules.specs.Procedures.{main_ok, form_ok, depth_ok, sizes_ok, end_of, start_of, cells_ok, procedure_ok, counts_ok, table_fault};
ghost use Rattle.rules.specs.ProcedureLaws.{TableIsChecked, TableNames};
ghost use Rattle.rules.specs.Faults.{passed};
ghost use Rattle.rules.specs.LookupLaws.{OwnersBeginLast};

use crate::fault::TableFault;
use crate::lookup::{ancestor, procedure_at};
use sheet::procedure::Procedure;
use sheet::table::Table;

const MOST_CODE: usize = 4096;

const MOST_PROCEDURES: usize = 64;

const MOST_PARAMETERS: u16 = 35;

// How many parents may lead from a procedure to procedure 0.
const MOST_PARENTS: usize = 7;

fn main_ok(procedure: Procedure) -> bool
    ensures { result ≡ main_ok procedure }
{
    procedure.parent == 0
        && procedure.first == 0
        && procedure.parameters == 0
        && procedure.result.is_none()
}

fn form_ok(table: Table<'_>, n: usize, procedure: Procedure) -> bool
    ensures { result ≡ form_ok (contents_of table.entry) n procedure }
{
    if n == 0 {
        return main_ok(procedure);
    }
    (procedure.parent as usize) < n && procedure_at(table, n - 1).first < procedure.first
}

fn depth_ok(table: Table<'_>, n: usize) -> bool
    ensures { result ≡ depth_ok (contents_of table.entry) n }
{
    ancestor(table, MOST_PARENTS + 1, n).is_none()
}

fn sizes_ok(procedure: Procedure) -> bool
    ensures { result ≡ sizes_ok procedure }
{
    procedure.parameters <= MOST_PARAMETERS
        && procedure.parameters <= procedure.count
        && procedure.count <= Procedure::MOST_CELLS
}

// Wide, since the offset may be any number.
fn end_of(procedure: Procedure) -> u128
    ensures { result ≡ end_of procedure }
{
    procedure.offset as u128 + procedure.count as u128
}

// Where the cells of procedure n must begin: after those of the one before it.
fn start_of(table: Table<'_>, n: usize) -> u128
    ensures { result ≡ start_of (contents_of table.entry) n }
{
    if n == 0 {
        0
    } else {
        end_of(procedure_at(table, n - 1))
    }
}

fn cells_ok(table: Table<'_>, n: usize, procedure: Procedure) -> bool
    ensures { result ≡ cells_ok (contents_of table.entry) n procedure }
{
    procedure.offset as u128 == start_of(table, n) && end_of(procedure) <= table.cells.len() as u128
}

fn procedure_ok(table: Table<'_>, n: usize, procedure: Procedure) -> bool
    ensures { result ≡ procedure_ok (contents_of table.entry) n procedure }
{
    form_ok(table, n, procedure)
        && (procedure.first as usize) < table.code.len()
        && depth_ok(table, n)
        && sizes_ok(procedure)
        && cells_ok(table, n, procedure)
}

fn counts_ok(table: Table<'_>) -> bool
    ensures { result ≡ counts_ok (contents_of table.entry) }
{
    (1..=MOST_CODE).contains(&table.code.len())
        && (1..=MOST_PROCEDURES).contains(&table.procedures.len())
}

// The lowest procedure that breaks a rule.
fn lowest_ill_formed(table: Table<'_>) -> Option<usize>
    ensures { result ≡ position (λ x. not (procedure_ok (contents_of table.entry) x.0 x.1)) (enumerate_from 0 table.entry.procedures.now) }
{
    table
        .procedures
        .iter()
        .enumerate()
        .position(|(n, procedure)| !procedure_ok(table, n, *procedure))
}

// Refuses a table that breaks one of the rules of tables.
#[tactic(auto, using(crate::proofs::Decided::lowest_by_position, crate::proofs::ProcedureLaws::table_is_checked, crate::proofs::ProcedureLaws::table_names, crate::proofs::LookupLaws::owners_begin_last))]
pub fn check_table(table: Table<'_>) -> Result<(), TableFault>
    ensures value { result ≡ passed (table_fault (contents_of table.entry)) }
    ensures law { TableIsChecked }
    ensures names { TableNames }
    ensures owners { OwnersBeginLast }
{
    if !counts_ok(table) {
        return Err(TableFault::IllFormed(0));
    }
    lowest_ill_formed(table).map_or(Ok(()), |n| Err(TableFault::IllFormed(n)))
}
