// Which letter or operand of an instruction is not allowed, and what would be. The rules are tried in the verifier's order.
use crate::notes::Pair;
use crate::row::spoken;
use crate::words::sign;
use rules::lookup::{ancestor, cells_at, owner, procedure_at};
use sheet::instruction::Instruction;
use sheet::kind::Kind;
use sheet::procedure::Procedure;
use sheet::shape::{Letters, Rule};
use sheet::table::Table;
use std::alloc::{AllocError, Global};

// As they stand in their two columns.
fn allowed_letters(letters: Letters) -> &'static str {
    match letters {
        Letters::Nothing => "the letters --",
        Letters::Number => "the letters i- or r-",
        Letters::Every => "the letters a-, b-, c-, i- or r-",
        Letters::Ordinal => "the letters a-, c- or i-",
        Letters::Reads => "the letters b-, c-, i- or r-",
        Letters::Pair => "the letters ir, ri, ci or ic",
    }
}

fn are_right(letters: Letters, t: Option<Kind>, t2: Option<Kind>) -> bool {
    match (letters, t, t2) {
        (Letters::Nothing, None, None) => true,
        (Letters::Number, Some(Kind::Integer | Kind::Real), None) => true,
        (Letters::Every, Some(_), None) => true,
        (Letters::Ordinal, Some(Kind::Address | Kind::Character | Kind::Integer), None) => true,
        (Letters::Reads, Some(kind), None) => kind != Kind::Address,
        (Letters::Pair, Some(Kind::Integer), Some(Kind::Real | Kind::Character)) => true,
        (Letters::Pair, Some(Kind::Real | Kind::Character), Some(Kind::Integer)) => true,
        _ => false,
    }
}

fn constants(heap: Global, t: Option<Kind>) -> Result<String, AllocError> {
    match t {
        Some(Kind::Boolean) => format!(in heap; "q 0 or 1"),
        Some(Kind::Character) => format!(in heap; "q from 0 to 255"),
        _ => format!(in heap; "q, a data cell of procedure 0, the first at 5"),
    }
}

// What the rule asks of p and q, for an instruction of procedure o.
fn allowed_operands(
    heap: Global,
    table: Table<'_>,
    o: usize,
    x: Instruction,
) -> Result<String, AllocError> {
    let kind = sign(x.t);
    match x.mnemonic.shape().rule {
        Rule::Free => format!(in heap; "any operand"),
        Rule::Constant => constants(heap, x.t),
        Rule::Global => format!(in heap; "q, a data cell of kind {kind} of procedure 0"),
        Rule::Local => format!(in heap;
            "p static links to a procedure, and q, a data cell of kind {kind} there, or its result at 0"
        ),
        Rule::Address => format!(in heap;
            "p static links to a procedure, and q, a data cell there"
        ),
        Rule::Label => format!(in heap; "q, an instruction of procedure {o} that is not its first"),
        Rule::Link => format!(in heap; "p static links to a procedure"),
        Rule::Call => format!(in heap;
            "q, the first instruction of a procedure but 0, and p, how many parameters it has"
        ),
        Rule::Enter => {
            let size = Procedure::FIRST_CELL.saturating_add(procedure_at(table, o).count as usize);
            format!(in heap; "p from 0 to 40, and q {size}, the size of the frame")
        }
        Rule::Function => format!(in heap; "a procedure with a result"),
        Rule::Procedure => format!(in heap; "a procedure but 0 without a result"),
    }
}

fn found_letters(heap: Global, x: Instruction) -> Result<String, AllocError> {
    let t = sign(x.t);
    let t2 = sign(x.t2);
    format!(in heap; "the letters {t}{t2}")
}

// The kind of data cell q of a procedure.
fn kind_of(table: Table<'_>, procedure: Procedure, q: i32) -> Option<Kind> {
    let place = usize::try_from(q).ok()?.checked_sub(Procedure::FIRST_CELL)?;
    cells_at(table, procedure.offset, procedure.count)
        .get(place)
        .copied()
}

// Operand q, and what it names in a procedure's frame.
fn named_cell(
    heap: Global,
    table: Table<'_>,
    procedure: Procedure,
    q: i32,
) -> Result<String, AllocError> {
    match (kind_of(table, procedure, q), procedure.result) {
        (Some(kind), _) => format!(in heap; "q {q}, a data cell of kind {}", sign(Some(kind))),
        (None, Some(kind)) if q == 0 => format!(in heap;
            "q 0, a result of kind {}",
            sign(Some(kind))
        ),
        _ => format!(in heap; "q {q}, no data cell"),
    }
}

// Operands p and q, and what they name in the frames that procedure o sees.
fn far_cell(
    heap: Global,
    table: Table<'_>,
    o: usize,
    p: i32,
    q: i32,
) -> Result<String, AllocError> {
    let links = usize::try_from(p).ok();
    match links.and_then(|links| ancestor(table, links, o)) {
        Some(a) => {
            let cell = named_cell(heap, table, procedure_at(table, a), q)?;
            format!(in heap; "p {p}, to procedure {a}, and {cell}")
        }
        None => format!(in heap; "p {p}, to no procedure"),
    }
}

// Operand q, and the procedure that it lies in.
fn place(heap: Global, table: Table<'_>, q: i32) -> Result<String, AllocError> {
    match usize::try_from(q) {
        Ok(n) if n < table.code.len() => {
            let o = owner(table, n);
            format!(in heap; "q {q}, in procedure {o}")
        }
        _ => format!(in heap; "q {q}, outside the table"),
    }
}

fn callee(heap: Global, table: Table<'_>, p: i32, q: i32) -> Result<String, AllocError> {
    let found = table
        .procedures
        .iter()
        .enumerate()
        .find(|(_, procedure)| i32::from(procedure.first) == q);
    match found {
        Some((n, procedure)) => {
            let parameters = procedure.parameters;
            format!(in heap; "p {p}, and q {q}, where procedure {n} begins, which has {parameters}")
        }
        None => format!(in heap; "p {p}, and q {q}, where no procedure begins"),
    }
}

fn found_operands(
    heap: Global,
    table: Table<'_>,
    o: usize,
    x: Instruction,
) -> Result<String, AllocError> {
    let Instruction { t, p, q, .. } = x;
    let main = procedure_at(table, 0);
    match x.mnemonic.shape().rule {
        Rule::Constant if t == Some(Kind::Address) => named_cell(heap, table, main, q),
        Rule::Global => named_cell(heap, table, main, q),
        Rule::Local | Rule::Address => far_cell(heap, table, o, p, q),
        Rule::Label => place(heap, table, q),
        Rule::Call => callee(heap, table, p, q),
        Rule::Link => format!(in heap; "p {p}, to no procedure"),
        Rule::Function | Rule::Procedure => match procedure_at(table, o).result {
            Some(kind) => format!(in heap;
                "procedure {o}, with a result of kind {}",
                sign(Some(kind))
            ),
            None => format!(in heap; "procedure {o}, without a result"),
        },
        Rule::Enter => format!(in heap; "p {p} and q {q}"),
        Rule::Constant | Rule::Free => format!(in heap; "q {q}"),
    }
}

// What is expected at instruction n, which is x, and what is found there.
pub(crate) fn not_allowed(
    heap: Global,
    table: Table<'_>,
    n: usize,
    x: Instruction,
) -> Result<Pair, AllocError> {
    let shape = x.mnemonic.shape();
    let o = owner(table, n);
    let is_first = procedure_at(table, o).first as usize == n;
    let Instruction { t, t2, p, q, .. } = x;
    if !are_right(shape.letters, t, t2) {
        let letters = allowed_letters(shape.letters);
        return Ok((format!(in heap; "{letters}")?, found_letters(heap, x)?));
    }
    if (!shape.p && p != 0) || (!shape.q && q != 0) {
        let expected = format!(in heap; "0 for an operand that is not used")?;
        return Ok((expected, format!(in heap; "p {p} and q {q}")?));
    }
    if is_first && shape.rule != Rule::Enter {
        let expected = format!(in heap; "ent, as the first instruction of procedure {o}")?;
        return Ok((expected, spoken(heap, x)?));
    }
    if !is_first && shape.rule == Rule::Enter {
        let expected = format!(in heap; "ent only as the first instruction of a procedure")?;
        return Ok((expected, format!(in heap; "ent within procedure {o}")?));
    }
    Ok((
        allowed_operands(heap, table, o, x)?,
        found_operands(heap, table, o, x)?,
    ))
}
