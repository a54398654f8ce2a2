// A line of the listing for an instruction, in columns.
use crate::grid::CodeLine;
use crate::stack::stack_within;
use crate::words::{own_effect, own_meaning, sign};
use rows::row::Row;
use sheet::instruction::Instruction;
use sheet::kind::Kind;
use sheet::shape::{Letters, Rule, Shape};
use std::alloc::{AllocError, Global};

// A wider stack is shown by its top.
const WIDEST_STACK: usize = 32;

// A letter after a blank: nothing where none is due, and a ! before one that is not due, or in place of one that is.
fn letter(heap: Global, is_due: bool, kind: Option<Kind>) -> Result<String, AllocError> {
    match kind {
        None if !is_due => Ok(String::new(heap)),
        Some(_) if is_due => format!(in heap; " {}", sign(kind)),
        _ => format!(in heap; " !{}", sign(kind)),
    }
}

// An operand after a blank: nothing where none is due, and a ! before one that is not due.
fn operand(heap: Global, is_due: bool, value: i32) -> Result<String, AllocError> {
    match value {
        _ if is_due => format!(in heap; " {value}"),
        0 => Ok(String::new(heap)),
        _ => format!(in heap; " !{value}"),
    }
}

// The operand q, which an arrow shows to be a place in the code.
fn target(heap: Global, shape: Shape, q: i32) -> Result<String, AllocError> {
    match shape.rule {
        Rule::Label | Rule::Call => format!(in heap; " -> {q}"),
        _ => operand(heap, shape.q, q),
    }
}

// Its letters and operands, each after a blank.
fn operands(heap: Global, instruction: Instruction) -> Result<String, AllocError> {
    let Instruction {
        mnemonic,
        t,
        t2,
        p,
        q,
    } = instruction;
    let shape = mnemonic.shape();
    let t = letter(heap, shape.letters != Letters::Nothing, t)?;
    let t2 = letter(heap, shape.letters == Letters::Pair, t2)?;
    let p = operand(heap, shape.p, p)?;
    let q = target(heap, shape, q)?;
    format!(in heap; "{t}{t2}{p}{q}")
}

// An instruction as it is spoken of.
pub(crate) fn spoken(heap: Global, instruction: Instruction) -> Result<String, AllocError> {
    let name = instruction.mnemonic.name();
    let name = std::str::from_utf8(&name).unwrap_or("?").trim_end();
    let operands = operands(heap, instruction)?;
    format!(in heap; "{name}{operands}")
}

// The same, with its letters and operands below those of other instructions.
fn aligned(heap: Global, instruction: Instruction) -> Result<String, AllocError> {
    let name = instruction.mnemonic.name();
    let name = std::str::from_utf8(&name).unwrap_or("?");
    let operands = operands(heap, instruction)?;
    let text = format!(in heap; "{name}{operands}")?;
    String::from_str(heap, text.as_str().trim_end())
}

// The columns of an instruction's line, with the stack before it where there is one to show.
pub(crate) fn code_line(
    heap: Global,
    number: usize,
    instruction: Instruction,
    before: Option<Row>,
) -> Result<CodeLine, AllocError> {
    let before = match before {
        Some(row) => Some(stack_within(heap, row, WIDEST_STACK)?),
        None => None,
    };
    Ok(CodeLine {
        number,
        text: aligned(heap, instruction)?,
        before,
        effect: own_effect(heap, instruction)?,
        meaning: own_meaning(heap, instruction)?,
    })
}
