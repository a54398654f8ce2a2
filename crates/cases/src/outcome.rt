// How a text is answered, and what is left of the lists.
ghost use Rattle.std.specs.Prelude.{◌≡◌, IfOk};
ghost use Rattle.columns.specs.TableText.{read_table, answered};
ghost use Rattle.cases.specs.Outcomes.{number_of, place_of};

use columns::fault::TextFault;
use columns::table_text::{Extent, read_table};
use sheet::instruction::Instruction;
use sheet::kind::Kind;
use sheet::mnemonic::Mnemonic;
use sheet::procedure::Procedure;
use std::alloc::{AllocError, Global};

// The answer, and how many places of each list still hold what they held before.
#[derive(Clone, Copy, Drop)]
pub struct Outcome {
    pub answer: Result<Extent, TextFault>,
    pub untouched: Extent,
}

// Number and place apart, since `end_line` of lister gives both as one line written in columns.
impl Outcome {
    // 0 where the text was read.
    pub fn number(self) -> u8
        ensures { result ≡ number_of self.answer }
    {
        match self.answer {
            Ok(_) => 0,
            Err(fault) => fault.number(),
        }
    }

    // The count of instructions, or the line refused.
    pub fn place(self) -> usize
        ensures { result ≡ place_of self.answer }
    {
        match self.answer {
            Ok(extent) => extent.code,
            Err(fault) => fault.line(),
        }
    }
}

// What every place holds before: no text lays such records, but for cells of kind a.
const PROCEDURE: Procedure = Procedure {
    parent: u16::MAX,
    first: u16::MAX,
    parameters: u16::MAX,
    result: Some(Kind::Address),
    offset: usize::MAX,
    count: u16::MAX,
};

const CELL: Kind = Kind::Address;

const INSTRUCTION: Instruction = Instruction {
    mnemonic: Mnemonic::Conv,
    t: None,
    t2: None,
    p: -1,
    q: -1,
};

// How many of the list equal x.
fn count<T: PartialEq>(list: &[T], x: &T) -> usize {
    list.iter().filter(|y| *y == x).count()
}

// By mnemonic and operands; the letters do not matter.
fn is_untouched(x: &Instruction) -> bool {
    x.mnemonic == INSTRUCTION.mnemonic && x.p == INSTRUCTION.p && x.q == INSTRUCTION.q
}

// Reads a text into lists of these lengths.
#[tactic(auto, using(crate::proofs::Rooms::answer_by_room))]
pub fn try_table(heap: Global, text: &[u8], room: Extent) -> Result<Outcome, AllocError>
    ensures { IfOk result (λ o. o.answer ≡ answered (read_table room text.now)) }
{
    let mut procedures = vec![in heap; PROCEDURE; room.procedures]?;
    let mut cells = vec![in heap; CELL; room.cells]?;
    let mut code = vec![in heap; INSTRUCTION; room.code]?;
    let answer = read_table(text, &mut procedures, &mut cells, &mut code);
    let untouched = Extent {
        procedures: count(&procedures, &PROCEDURE),
        cells: count(&cells, &CELL),
        code: code.iter().filter(|x| is_untouched(x)).count(),
    };
    Ok(Outcome { answer, untouched })
}
