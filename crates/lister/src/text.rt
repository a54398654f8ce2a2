ghost use Rattle.std.specs.Prelude.{◌≡◌, length, IfOk};
ghost use Rattle.columns.specs.TableText.{read_table, room_of};
ghost use Rattle.prepare.specs.Preparing.{prepared};
ghost use Rattle.lister.specs.Listings.{EndsIn, end_line, verdict_on};

use crate::again::Paths;
use crate::parts::{Culprit, Judged, list_parts, list_stacks};
use crate::refusal::refusal;
use crate::why::{culprit, why};
use columns::table_text::read_table;
use columns::verdict::write_verdict;
use judge::judge;
use numerals::lines::line_count;
use prepare::fault::PrepareFault;
use prepare::prepare::Prepared;
use rows::row::Row;
use rules::fault::TableFault;
use sheet::instruction::Instruction;
use sheet::kind::Kind;
use sheet::procedure::Procedure;
use sheet::table::Table;
use std::alloc::{AllocError, Global};

// The verdict: 0 and how many instructions paths reach, or the refusal's number and its place.
fn end_line(answer: Result<Prepared, PrepareFault>) -> [u8; 42]
    ensures { result ≡ end_line answer }
{
    match answer {
        Ok(prepared) => write_verdict(0, prepared.reached as u64),
        Err(fault) => write_verdict(fault.number() as u64, fault.place() as u64),
    }
}

// Puts the verdict last.
fn ended(body: String, verdict: [u8; 42]) -> Result<Vec<u8>, AllocError>
    ensures { IfOk result (λ out. EndsIn verdict out.items) }
{
    let mut out = body.into_bytes();
    out.extend_from_slice(&verdict)?;
    Ok(out)
}

// How much of a table is listed.
#[derive(Clone, Copy, Drop)]
enum Form {
    Whole,
    Stacks,
}

impl Form {
    fn list(self, heap: Global, judged: Judged<'_>) -> Result<String, AllocError> {
        match self {
            Form::Whole => list_parts(heap, judged),
            Form::Stacks => list_stacks(heap, judged),
        }
    }
}

// What is to be listed, and how.
#[derive(Clone, Copy, Drop)]
struct Request<'a> {
    heap: Global,
    text: &'a [u8],
    form: Form,
}

// The rows of the instructions, of those that are lent for more.
fn own_rows<'a>(table: Table<'_>, rows: &'a [Row]) -> &'a [Row] {
    rows.get(..table.code.len()).unwrap_or(rows)
}

impl Request<'_> {
    fn accepted(self, table: Table<'_>, rows: &[Row]) -> Result<String, AllocError> {
        let judged = Judged {
            table,
            rows: own_rows(table, rows),
            culprit: Culprit::Nothing,
        };
        self.form.list(self.heap, judged)
    }

    // The stacks that paths brought, where they were followed, and what is wrong.
    fn refused(self, table: Table<'_>, fault: TableFault) -> Result<String, AllocError> {
        let heap = self.heap;
        let paths = match fault {
            TableFault::IllFormed(_) | TableFault::NotAllowed(_) => Paths::none(heap),
            _ => Paths::follow(heap, table)?,
        };
        let judged = Judged {
            table,
            rows: &paths.rows,
            culprit: culprit(table, fault),
        };
        let mut out = self.form.list(heap, judged)?;
        if matches!(self.form, Form::Stacks) && !paths.rows.is_empty() {
            out.push('\n')?;
        }
        let why = why(heap, self.text, table, &paths, fault)?;
        out.push_str(why.as_str())?;
        Ok(out)
    }

    // Reads the text into these lists and judges what they hold: all but the last line of its listing, and the verdict.
    fn list_in(
        self,
        procedures: &mut [Procedure],
        cells: &mut [Kind],
        code: &mut [Instruction],
        rows: &mut [Row],
        places: &mut [usize],
    ) -> Result<(String, [u8; 42]), AllocError>
        ensures { IfOk result (λ l. l.1 ≡ end_line (prepared (read_table (room_of procedures.old cells.old code.old) self.entry.text.now) (length rows.old) (length places.old))) }
    {
        let extent = match read_table(self.text, procedures, cells, code) {
            Ok(extent) => extent,
            Err(fault) => {
                let body = refusal(self.heap, self.text, fault)?;
                return Ok((body, end_line(Err(PrepareFault::Text(fault)))));
            }
        };
        let table = extent.table_in(procedures, cells, code);
        match judge(table, rows, places) {
            Ok(reached) => {
                let body = self.accepted(table, rows)?;
                Ok((body, end_line(Ok(Prepared { extent, reached }))))
            }
            Err(fault) => {
                let body = self.refused(table, fault)?;
                Ok((body, end_line(Err(PrepareFault::Table(fault)))))
            }
        }
    }
}

fn listed(heap: Global, text: &[u8], form: Form) -> Result<Vec<u8>, AllocError>
    ensures { IfOk result (λ out. EndsIn (verdict_on text.now) out.items) }
{
    let lines = line_count(text);
    let mut procedures = vec![in heap; Procedure::NONE; lines]?;
    let mut cells = vec![in heap; Kind::Integer; lines]?;
    let mut code = vec![in heap; Instruction::NONE; lines]?;
    let mut rows = vec![in heap; Row::unreached(); lines]?;
    let mut places = vec![in heap; 0usize; lines]?;
    let request = Request { heap, text, form };
    let (body, verdict) = request.list_in(
        &mut procedures,
        &mut cells,
        &mut code,
        &mut rows,
        &mut places,
    )?;
    ended(body, verdict)
}

// The whole listing of a table's text. It ends in the verdict on it: read, and then judged.
pub fn list_table(heap: Global, text: &[u8]) -> Result<Vec<u8>, AllocError>
    ensures { IfOk result (λ out. EndsIn (verdict_on text.now) out.items) }
{
    listed(heap, text, Form::Whole)
}

// Only the stack before each instruction, as far as paths brought one, and where the text is refused, why. It ends likewise.
pub fn list_rows(heap: Global, text: &[u8]) -> Result<Vec<u8>, AllocError>
    ensures { IfOk result (λ out. EndsIn (verdict_on text.now) out.items) }
{
    listed(heap, text, Form::Stacks)
}
