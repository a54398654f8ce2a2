ghost use Rattle.std.specs.Prelude.{◌≡◌, ◌+◌, ◌^◌, ◌<◌, Bool, None, take};
ghost use Rattle.columns.specs.Scans.{Computes, first_failing, laid};
ghost use Rattle.columns.specs.Causes.{RefusedForCause};
ghost use Rattle.columns.specs.Laying.{with_procedure, with_cell, with_code, SameLists};
ghost use Rattle.columns.specs.TableText.{Said, Order, start, counted, in_order, has_room, first_fault, verdict, lines_of, own_cells, record_of, procedures_of, cells_of, code_of, contents, extent_of, room_of, read_table, answered, procedures_left, cells_left, code_left};

use crate::fault::{LineFault, TextFault, is_well_formed};
use crate::line::{Heading, Line, read_line};
use crate::lists::put;
use numerals::lines::Lines;
use sheet::instruction::Instruction;
use sheet::kind::Kind;
use sheet::procedure::Procedure;
use sheet::table::Table;

// How many records of each list a text has.
#[derive(Clone, Copy, Drop)]
pub struct Extent {
    pub procedures: usize,
    pub cells: usize,
    pub code: usize,
}

impl Extent {
    // The table that the front of each list holds, or all of a list that has fewer records.
    pub fn table_in<'a>(
        self,
        procedures: &'a [Procedure],
        cells: &'a [Kind],
        code: &'a [Instruction],
    ) -> Table<'a>
        ensures procedures { result.procedures.now ≡ take self.procedures procedures.now }
        ensures cells { result.cells.now ≡ take self.cells cells.now }
        ensures code { result.code.now ≡ take self.code code.now }
    {
        Table {
            procedures: procedures.get(..self.procedures).unwrap_or(procedures),
            cells: cells.get(..self.cells).unwrap_or(cells),
            code: code.get(..self.code).unwrap_or(code),
        }
    }
}

// What the lines so far hold; `own` counts the cells of the last procedure.
#[derive(Clone, Copy, Drop)]
pub struct Counts {
    pub total: Extent,
    pub own: usize,
}

const START: Counts = Counts {
    total: Extent {
        procedures: 0,
        cells: 0,
        code: 0,
    },
    own: 0,
};

impl Counts {
    // Counts one line more.
    fn after(mut self, line: Result<Line, LineFault>) -> Counts
        requires procedures { self.total.procedures + 1 < 2 ^ 64 }
        requires cells { self.total.cells + 1 < 2 ^ 64 }
        requires code { self.total.code + 1 < 2 ^ 64 }
        requires own { self.own + 1 < 2 ^ 64 }
        ensures { result ≡ counted self line }
    {
        match line {
            Ok(Line::Procedure(_)) => {
                self.total.procedures += 1;
                self.own = 0;
            }
            Ok(Line::Cell(_)) => {
                self.total.cells += 1;
                self.own += 1;
            }
            Ok(Line::Code(_, _)) => self.total.code += 1,
            Err(_) => {}
        }
        self
    }

    // Whether a line may follow those that are counted.
    fn is_in_order(self, line: Result<Line, LineFault>) -> bool
        ensures { result ≡ in_order self line }
    {
        let Extent {
            procedures,
            code,
            ..
        } = self.total;
        match line {
            Ok(Line::Procedure(heading)) => code == 0 && usize::from(heading.number) == procedures,
            Ok(Line::Cell(_)) => code == 0
                && 0 < procedures
                && self.own < Procedure::MOST_CELLS as usize,
            Ok(Line::Code(number, _)) => usize::from(number) == code,
            Err(_) => false,
        }
    }

    // Whether the lists have a place for the line's record.
    fn has_room(self, room: Extent, line: Result<Line, LineFault>) -> bool
        ensures { result ≡ has_room room self line }
    {
        match line {
            Ok(Line::Procedure(_)) => self.total.procedures < room.procedures,
            Ok(Line::Cell(_)) => self.total.cells < room.cells,
            Ok(Line::Code(_, _)) => self.total.code < room.code,
            Err(_) => true,
        }
    }
}

// The first line that fails the test, from 1; each is tested with what the lines before it hold.
fn first_fault<F: Fn(Counts, Result<Line, LineFault>) -> bool>(
    text: &[u8],
    passes: F,
) -> Option<usize>
    requires { F.IsAlwaysCallable passes }
    ensures { (test : Counts → Said → Bool) → Computes (F.post passes) test → result ≡ first_failing counted test start 1 (lines_of text.now) }
{
    let mut counts = START;
    for (i, line) in Lines::new(text).enumerate() {
        let said = read_line(line);
        if !passes(counts, said) {
            return Some(i + 1);
        }
        counts = counts.after(said);
    }
    None
}

// How many cell lines a text begins with.
fn own_cells(text: &[u8]) -> usize
    ensures { result ≡ own_cells (lines_of text.now) }
{
    Lines::new(text)
        .take_while(|line| matches!(read_line(line), Ok(Line::Cell(_))))
        .count()
}

impl Heading {
    fn record(self, offset: usize, count: u16) -> Procedure
        ensures { result ≡ record_of self offset count }
    {
        let Heading {
            parent,
            first,
            parameters,
            result,
            ..
        } = self;
        Procedure {
            parent,
            first,
            parameters,
            result,
            offset,
            count,
        }
    }
}

// The three lists lent for a table.
#[derive(Drop)]
struct Lists<'a> {
    procedures: &'a mut [Procedure],
    cells: &'a mut [Kind],
    code: &'a mut [Instruction],
}

impl<'a> Lists<'a> {
    // Lays one line's record into its list; `rest` is the text after the line.
    fn lay(&mut self, said: Result<Line, LineFault>, counts: Counts, rest: &[u8])
        requires { own_cells (lines_of rest.now) < 65536 }
        ensures procedures { self.new.procedures.now ≡ with_procedure said counts (own_cells (lines_of rest.now)) self.old.procedures.now }
        ensures cells { self.new.cells.now ≡ with_cell said counts self.old.cells.now }
        ensures code { self.new.code.now ≡ with_code said counts self.old.code.now }
        ensures same { SameLists self.old self.new }
    {
        match said {
            Ok(Line::Procedure(heading)) => {
                let own = own_cells(rest) as u16;
                put(
                    self.procedures,
                    counts.total.procedures,
                    heading.record(counts.total.cells, own),
                );
            }
            Ok(Line::Cell(kind)) => put(self.cells, counts.total.cells, kind),
            Ok(Line::Code(_, instruction)) => put(self.code, counts.total.code, instruction),
            Err(_) => {}
        }
    }

    // Lays the records of a text in order into the lists.
    fn lay_all(&mut self, text: &[u8]) -> Extent
        requires { first_fault Order text.now ≡ None }
        ensures value { result ≡ extent_of (contents (lines_of text.now)) }
        ensures procedures { self.new.procedures.now ≡ laid (procedures_of 0 (lines_of text.now)) self.old.procedures.now }
        ensures cells { self.new.cells.now ≡ laid (cells_of (lines_of text.now)) self.old.cells.now }
        ensures code { self.new.code.now ≡ laid (code_of (lines_of text.now)) self.old.code.now }
        ensures same { SameLists self.old self.new }
    {
        // Not a `for`, since the text after each line is asked of the iterator.
        let mut lines = Lines::new(text);
        let mut counts = START;
        while let Some(line) = lines.next() {
            let said = read_line(line);
            self.lay(said, counts, lines.as_slice());
            counts = counts.after(said);
        }
        counts.total
    }
}

// The first line at fault under the lowest number.
fn check(text: &[u8], room: Extent) -> Result<(), TextFault>
    ensures { result ≡ verdict room text.now }
{
    if let Some(n) = first_fault(text, |_, said| is_well_formed(said)) {
        return Err(TextFault::Malformed(n));
    }
    if let Some(n) = first_fault(text, Counts::is_in_order) {
        return Err(TextFault::Misplaced(n));
    }
    if let Some(n) = first_fault(text, |counts, said| counts.has_room(room, said)) {
        return Err(TextFault::TooLong(n));
    }
    Ok(())
}

// Reads a table's text into three lent lists. A text that is refused changes none of them.
// The lists are lent one by one: of a struct of `&mut`s the clauses would have to say too that it still holds the same ones.
pub fn read_table(
    text: &[u8],
    procedures: &mut [Procedure],
    cells: &mut [Kind],
    code: &mut [Instruction],
) -> Result<Extent, TextFault>
    ensures value { result ≡ answered (read_table (room_of procedures.old cells.old code.old) text.now) }
    ensures procedures { procedures.new ≡ procedures_left (read_table (room_of procedures.old cells.old code.old) text.now) procedures.old }
    ensures cells { cells.new ≡ cells_left (read_table (room_of procedures.old cells.old code.old) text.now) cells.old }
    ensures code { code.new ≡ code_left (read_table (room_of procedures.old cells.old code.old) text.now) code.old }
    ensures cause { RefusedForCause }
{
    let room = Extent {
        procedures: procedures.len(),
        cells: cells.len(),
        code: code.len(),
    };
    check(text, room)?;
    let mut lists = Lists {
        procedures,
        cells,
        code,
    };
    Ok(lists.lay_all(text))
}
