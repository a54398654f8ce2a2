// The rules of letters and operands.
ghost use Rattle.std.specs.Prelude.{◌≡◌, not, position};
ghost use Rattle.std.specs.List.{enumerate_from};
ghost use Rattle.rules.specs.Lookups.{contents_of};
ghost use Rattle.rules.specs.Operands.{unused_ok, is_cell, kind_at, constant_ok, cell_ok, variable_ok, local_ok, address_ok, label_ok, call_ok, enter_ok, rule_ok, ent_ok, instruction_ok, operand_fault};
ghost use Rattle.rules.specs.OperandLaws.{InstructionIsChecked, OperandsAreChecked, OperandsName};
ghost use Rattle.rules.specs.Faults.{passed};

use crate::fault::TableFault;
use crate::letters::letters_ok;
use crate::lookup::{ancestor, enters, index, owner, procedure_at};
use sheet::instruction::Instruction;
use sheet::kind::Kind;
use sheet::procedure::Procedure;
use sheet::shape::{Rule, Shape};
use sheet::table::Table;

// How many cells of stack an ent may allow.
const MOST_ROOM: usize = 40;

fn unused_ok(shape: Shape, p: i32, q: i32) -> bool
    ensures { result ≡ unused_ok shape p q }
{
    (shape.p || p == 0) && (shape.q || q == 0)
}

fn is_cell(procedure: Procedure, q: usize) -> bool
    ensures { result ≡ is_cell procedure q }
{
    (Procedure::FIRST_CELL..Procedure::FIRST_CELL + procedure.count as usize).contains(&q)
}

fn kind_at(table: Table<'_>, procedure: Procedure, q: usize) -> Option<Kind>
    ensures { result ≡ kind_at (contents_of table.entry) procedure q }
{
    if !is_cell(procedure, q) {
        return None;
    }
    let place = procedure.offset.checked_add(q - Procedure::FIRST_CELL)?;
    table.cells.get(place).copied()
}

fn constant_ok(table: Table<'_>, t: Option<Kind>, q: Option<usize>) -> bool
    ensures { result ≡ constant_ok (contents_of table.entry) t q }
{
    match (t, q) {
        (Some(Kind::Address), Some(q)) => is_cell(procedure_at(table, 0), q),
        (Some(Kind::Boolean), Some(q)) => q <= 1,
        (Some(Kind::Character), Some(q)) => q <= 255,
        (Some(Kind::Integer | Kind::Real), _) => true,
        _ => false,
    }
}

#[tactic(auto, using(crate::proofs::SameLetters::one_letter))]
fn cell_ok(table: Table<'_>, procedure: Procedure, t: Option<Kind>, q: usize) -> bool
    ensures { result ≡ cell_ok (contents_of table.entry) procedure t q }
{
    kind_at(table, procedure, q) == t
}

#[tactic(auto, using(crate::proofs::SameLetters::one_letter))]
fn variable_ok(table: Table<'_>, procedure: Procedure, t: Option<Kind>, q: usize) -> bool
    ensures { result ≡ variable_ok (contents_of table.entry) procedure t q }
{
    (q == 0 && procedure.result == t) || cell_ok(table, procedure, t, q)
}

// By `matches!`, here and below: of `is_some_and` the check does not tie the closure to the rule.
fn local_ok(table: Table<'_>, o: usize, t: Option<Kind>, p: usize, q: usize) -> bool
    ensures { result ≡ local_ok (contents_of table.entry) o t p q }
{
    matches!(ancestor(table, p, o), Some(a) if variable_ok(table, procedure_at(table, a), t, q))
}

fn address_ok(table: Table<'_>, o: usize, p: usize, q: usize) -> bool
    ensures { result ≡ address_ok (contents_of table.entry) o p q }
{
    matches!(ancestor(table, p, o), Some(a) if is_cell(procedure_at(table, a), q))
}

fn label_ok(table: Table<'_>, o: usize, q: usize) -> bool
    ensures { result ≡ label_ok (contents_of table.entry) o q }
{
    q < table.code.len() && owner(table, q) == o && q != procedure_at(table, o).first as usize
}

fn call_ok(table: Table<'_>, p: usize, q: usize) -> bool
    ensures { result ≡ call_ok (contents_of table.entry) p q }
{
    let number = owner(table, q);
    let callee = procedure_at(table, number);
    q < table.code.len()
        && number != 0
        && callee.first as usize == q
        && callee.parameters as usize == p
}

fn enter_ok(procedure: Procedure, p: usize, q: usize) -> bool
    ensures { result ≡ enter_ok procedure p q }
{
    p <= MOST_ROOM && q == Procedure::FIRST_CELL + procedure.count as usize
}

// Whether p and q name what the rule asks, for an instruction of procedure o.
// Letter and operands go one by one, here and above: each rule takes others of them, so that a struct would be taken apart at each call.
fn rule_ok(
    table: Table<'_>,
    o: usize,
    rule: Rule,
    t: Option<Kind>,
    p: Option<usize>,
    q: Option<usize>,
) -> bool
    ensures { result ≡ rule_ok (contents_of table.entry) o rule t p q }
{
    match (rule, p, q) {
        (Rule::Free, _, _) => true,
        (Rule::Constant, _, _) => constant_ok(table, t, q),
        (Rule::Global, _, Some(q)) => cell_ok(table, procedure_at(table, 0), t, q),
        (Rule::Local, Some(p), Some(q)) => local_ok(table, o, t, p, q),
        (Rule::Address, Some(p), Some(q)) => address_ok(table, o, p, q),
        (Rule::Label, _, Some(q)) => label_ok(table, o, q),
        (Rule::Link, Some(p), _) => ancestor(table, p, o).is_some(),
        (Rule::Call, Some(p), Some(q)) => call_ok(table, p, q),
        (Rule::Enter, Some(p), Some(q)) => enter_ok(procedure_at(table, o), p, q),
        (Rule::Function, _, _) => o != 0 && procedure_at(table, o).result.is_some(),
        (Rule::Procedure, _, _) => o != 0 && procedure_at(table, o).result.is_none(),
        _ => false,
    }
}

// ent is the first instruction of each procedure and stands nowhere else.
fn ent_ok(table: Table<'_>, o: usize, n: usize, rule: Rule) -> bool
    ensures { result ≡ ent_ok (contents_of table.entry) o n rule }
{
    let is_first = n == procedure_at(table, o).first as usize;
    enters(rule) == is_first
}

fn instruction_ok(table: Table<'_>, n: usize, x: Instruction) -> bool
    ensures { result ≡ instruction_ok (contents_of table.entry) n x }
{
    let shape = x.mnemonic.shape();
    let o = owner(table, n);
    letters_ok(shape.letters, x.t, x.t2)
        && unused_ok(shape, x.p, x.q)
        && ent_ok(table, o, n, shape.rule)
        && rule_ok(table, o, shape.rule, x.t, index(x.p), index(x.q))
}

// The lowest instruction that breaks a rule.
fn lowest_not_allowed(table: Table<'_>) -> Option<usize>
    ensures { result ≡ position (λ x. not (instruction_ok (contents_of table.entry) x.0 x.1)) (enumerate_from 0 table.entry.code.now) }
{
    table
        .code
        .iter()
        .enumerate()
        .position(|(n, x)| !instruction_ok(table, n, *x))
}

// Refuses a table with a letter, an operand or an ent that is not allowed.
#[tactic(auto, using(crate::proofs::Decided::lowest_by_position, crate::proofs::OperandLaws::instruction_is_checked, crate::proofs::OperandLaws::operands_are_checked, crate::proofs::OperandLaws::operands_name))]
pub fn check_operands(table: Table<'_>) -> Result<(), TableFault>
    ensures value { result ≡ passed (operand_fault (contents_of table.entry)) }
    ensures each { InstructionIsChecked }
    ensures law { OperandsAreChecked }
    ensures names { OperandsName }
{
    lowest_not_allowed(table).map_or(Ok(()), |n| Err(TableFault::NotAllowed(n)))
}
