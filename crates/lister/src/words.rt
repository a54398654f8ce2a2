// The words of a listing: two texts for each mnemonic, so that neither is its Display. Capitals in them stand for what an
// instruction says: T and U for its letters, P and Q for its operands, F for the frame p links up, and C for cell q there.
use sheet::instruction::Instruction;
use sheet::kind::Kind;
use sheet::mnemonic::Mnemonic;
use std::alloc::{AllocError, Global};

// What it takes from the stack and gives, the top at the right.
fn effect(mnemonic: Mnemonic) -> &'static str {
    match mnemonic {
        Mnemonic::Add | Mnemonic::Sub | Mnemonic::Mul | Mnemonic::Div => "(T, T) -> (T)",
        Mnemonic::And | Mnemonic::Or => "(b, b) -> (b)",
        Mnemonic::Not => "(b) -> (b)",
        Mnemonic::Equ
        | Mnemonic::Neq
        | Mnemonic::Les
        | Mnemonic::Leq
        | Mnemonic::Grt
        | Mnemonic::Geq => "(T, T) -> (b)",
        Mnemonic::Ldc | Mnemonic::Ldo | Mnemonic::Lod | Mnemonic::In => "() -> (T)",
        Mnemonic::Sro | Mnemonic::Str | Mnemonic::Out => "(T) -> ()",
        Mnemonic::Lda => "() -> (a)",
        Mnemonic::Ind => "(a) -> (T)",
        Mnemonic::Sto => "(a, T) -> ()",
        Mnemonic::Dpl => "(T) -> (T, T)",
        Mnemonic::Ixa => "(a, i) -> (a)",
        Mnemonic::Neg | Mnemonic::Inc | Mnemonic::Dec => "(T) -> (T)",
        Mnemonic::Chk => "(i) -> (i)",
        Mnemonic::Ujp => "() -> ()",
        Mnemonic::Fjp => "(b) -> ()",
        Mnemonic::Conv => "(T) -> (U)",
        Mnemonic::Mst => "() -> (mark)",
        Mnemonic::Cup => "(mark, ..) -> (result)",
        Mnemonic::Ent => "(parameters) -> ()",
        Mnemonic::Retf | Mnemonic::Retp | Mnemonic::Hlt => "(..) -> none",
    }
}

// What it does.
fn meaning(mnemonic: Mnemonic) -> &'static str {
    match mnemonic {
        Mnemonic::Add => "sum",
        Mnemonic::Sub => "lower cell minus top",
        Mnemonic::Mul => "product",
        Mnemonic::Div => "lower cell by top",
        Mnemonic::Neg => "negative",
        Mnemonic::And => "both",
        Mnemonic::Or => "either",
        Mnemonic::Not => "the other truth value",
        Mnemonic::Equ => "equal",
        Mnemonic::Neq => "not equal",
        Mnemonic::Les => "lower cell less than top",
        Mnemonic::Leq => "lower cell less or equal",
        Mnemonic::Grt => "lower cell greater than top",
        Mnemonic::Geq => "lower cell greater or equal",
        Mnemonic::Ldc => "the constant Q",
        Mnemonic::Ldo => "cell Q of procedure 0",
        Mnemonic::Sro => "into cell Q of procedure 0",
        Mnemonic::Lod => "C of F",
        Mnemonic::Str => "into C of F",
        Mnemonic::Lda => "address of C of F",
        Mnemonic::Ind => "what the address points to",
        Mnemonic::Sto => "into the cell that the address points to",
        Mnemonic::Dpl => "the top once more",
        Mnemonic::Ixa => "a + i * Q",
        Mnemonic::Inc => "Q more",
        Mnemonic::Dec => "Q less",
        Mnemonic::Chk => "stops unless P <= value <= Q",
        Mnemonic::Ujp => "goes on at Q",
        Mnemonic::Fjp => "goes on at Q if false",
        Mnemonic::In => "the next value waiting",
        Mnemonic::Out => "writes the value",
        Mnemonic::Conv => "in the other kind",
        Mnemonic::Mst => "begins a call, linked to F",
        Mnemonic::Cup => "calls the procedure at Q, parameters P",
        Mnemonic::Ent => "opens a frame of Q cells, at most P above",
        Mnemonic::Retf => "returns the result",
        Mnemonic::Retp => "returns",
        Mnemonic::Hlt => "ends the run",
    }
}

// The letter of a kind; - where there is none.
pub(crate) fn sign(kind: Option<Kind>) -> char {
    kind.map_or('-', |kind| kind.letter() as char)
}

fn frame(heap: Global, links: i32) -> Result<String, AllocError> {
    match links {
        0 => format!(in heap; "this frame"),
        1 => format!(in heap; "the frame 1 link up"),
        _ => format!(in heap; "the frame {links} links up"),
    }
}

fn cell(heap: Global, offset: i32) -> Result<String, AllocError> {
    match offset {
        0 => format!(in heap; "the result"),
        _ => format!(in heap; "cell {offset}"),
    }
}

// A text with what the instruction says for each capital.
fn filled(heap: Global, text: &str, instruction: Instruction) -> Result<String, AllocError> {
    let Instruction { t, t2, p, q, .. } = instruction;
    let mut out = String::new(heap);
    for c in text.chars() {
        let words = match c {
            'T' => format!(in heap; "{}", sign(t))?,
            'U' => format!(in heap; "{}", sign(t2))?,
            'P' => format!(in heap; "{p}")?,
            'Q' => format!(in heap; "{q}")?,
            'F' => frame(heap, p)?,
            'C' => cell(heap, q)?,
            _ => {
                out.push(c)?;
                continue;
            }
        };
        out.push_str(words.as_str())?;
    }
    Ok(out)
}

// What an instruction takes from the stack and gives.
pub(crate) fn own_effect(heap: Global, instruction: Instruction) -> Result<String, AllocError> {
    filled(heap, effect(instruction.mnemonic), instruction)
}

// What an instruction does.
pub(crate) fn own_meaning(heap: Global, instruction: Instruction) -> Result<String, AllocError> {
    filled(heap, meaning(instruction.mnemonic), instruction)
}
