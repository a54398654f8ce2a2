// An input set out: the text of a table read, the values checked, and the table run where it is right.
ghost use Rattle.std.specs.Prelude.{◌≡◌, Ok, IfOk, MatchResult};
ghost use Rattle.pegs.specs.Laws.{EveryInputIsTold, OnlyRunnableInputsAreRun};
ghost use Rattle.pegs.specs.SmallTable.{SmallTableIsSetOut};
ghost use Rattle.pegs.specs.SetOuts.{attempted, set_out, Why};

use crate::fault::Failure;
use crate::judged::run_if_right;
use crate::parts::{MOST_BYTES, host_over, part};
use crate::text::joined;
use columns::table_text::read_table;
use columns::verdict::write_verdict;
use sheet::instruction::Instruction;
use sheet::kind::Kind;
use sheet::procedure::Procedure;
use std::alloc::{AllocError, Global};

fn attempt(heap: Global, input: &[u8]) -> Result<Vec<u8>, Failure>
    ensures { MatchResult result (λ text. attempted input.now ≡ Ok text.items) (Why (attempted input.now)) }
{
    let parts = part(input)?;
    let n = parts.lines;
    let mut procedures = vec![in heap; Procedure::NONE; n]?;
    let mut cells = vec![in heap; Kind::Integer; n]?;
    let mut code = vec![in heap; Instruction::NONE; n]?;
    let extent = read_table(parts.table, &mut procedures, &mut cells, &mut code)?;
    let mut written = vec![in heap; 0u8; MOST_BYTES]?;
    let mut host = host_over(parts, &mut written)?;
    run_if_right(heap, extent.table_in(&procedures, &cells, &code), &mut host)
}

// Sets out an input: the text of a table, and the values typed from the first line on that begins with the letter of a type.
#[tactic(auto, using(crate::proofs::Counting::countable, crate::proofs::Promises::every_input_is_told, crate::proofs::SmallTable::small_table_is_set_out))]
pub fn set_out(heap: Global, input: &[u8]) -> Result<Vec<u8>, AllocError>
    ensures value { IfOk result (λ text. text.items ≡ set_out input.now) }
    ensures told { EveryInputIsTold }
    ensures run { OnlyRunnableInputsAreRun }
    ensures small { SmallTableIsSetOut }
{
    let refusal = match attempt(heap, input) {
        Ok(text) => return Ok(text),
        Err(Failure::NoMemory(error)) => return Err(error),
        Err(Failure::Refused(refusal)) => refusal,
    };
    let verdict = write_verdict(u64::from(refusal.number()), refusal.place() as u64);
    joined(heap, &[], &verdict)
}
