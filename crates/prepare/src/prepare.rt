ghost use Rattle.std.specs.Prelude.{◌≡◌, length};
ghost use Rattle.columns.specs.TableText.{read_table, room_of, procedures_left, cells_left, code_left};
ghost use Rattle.judge.specs.Handing.{meanings};
ghost use Rattle.prepare.specs.Preparing.{prepared, rows_left, places_left, RecordsKept};

use crate::fault::PrepareFault;
use columns::table_text::{Extent, read_table};
use judge::judge;
use rows::row::Row;
use sheet::instruction::Instruction;
use sheet::kind::Kind;
use sheet::procedure::Procedure;

// A table that was read and judged: how many records of each list it has, and how many instructions have rows.
#[derive(Clone, Copy, Drop)]
pub struct Prepared {
    pub extent: Extent,
    pub reached: usize,
}

// Reads a table's text into the three lists lent for it, then judges the table. A table once read stays in its lists.
// The lists are lent one by one: of a struct of `&mut`s each clause would have to say too that it still holds the same ones.
pub fn prepare(
    text: &[u8],
    procedures: &mut [Procedure],
    cells: &mut [Kind],
    code: &mut [Instruction],
    rows: &mut [Row],
    places: &mut [usize],
) -> Result<Prepared, PrepareFault>
    ensures value { result ≡ prepared (read_table (room_of procedures.old cells.old code.old) text.now) (length rows.old) (length places.old) }
    ensures procedures { procedures.new ≡ procedures_left (read_table (room_of procedures.old cells.old code.old) text.now) procedures.old }
    ensures cells { cells.new ≡ cells_left (read_table (room_of procedures.old cells.old code.old) text.now) cells.old }
    ensures code { code.new ≡ code_left (read_table (room_of procedures.old cells.old code.old) text.now) code.old }
    ensures rows { meanings rows.new ≡ rows_left (read_table (room_of procedures.old cells.old code.old) text.now) (length places.old) (meanings rows.old) }
    ensures records { RecordsKept (read_table (room_of procedures.old cells.old code.old) text.now) (length places.old) rows.old rows.new }
    ensures places { places.new ≡ places_left (read_table (room_of procedures.old cells.old code.old) text.now) (length rows.old) places.old }
{
    let extent = read_table(text, procedures, cells, code)?;
    let table = extent.table_in(procedures, cells, code);
    let reached = judge(table, rows, places)?;
    Ok(Prepared { extent, reached })
}
