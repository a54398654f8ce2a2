// The paths of a table followed once more, to tell which stacks met where it was refused.
// Nothing is promised of it: the verdict is the verifier's own.
use rows::row::Row;
use sheet::table::Table;
use std::alloc::{AllocError, Global};
use transfer::entrance::entry_row;
use transfer::transfer::{Sent, transfer};

#[derive(Drop)]
pub(crate) struct Paths {
    // The stack that came first to each instruction.
    pub(crate) rows: Vec<Row>,
    // The instruction that it came from.
    came: Vec<usize>,
    // Another that came where it differs.
    pub(crate) other: Option<Other>,
    work: Vec<usize>,
}

// A stack, and the instruction that it came from.
#[derive(Clone, Copy, Drop)]
pub(crate) struct Other {
    pub(crate) row: Row,
    pub(crate) from: usize,
}

// A path ends the search where it breaks a rule or brings another stack.
#[derive(Clone, Copy, Drop)]
enum Step {
    GoesOn,
    Ends,
}

impl Paths {
    // Where no path was followed.
    pub(crate) fn none(heap: Global) -> Paths {
        Paths {
            rows: Vec::new(heap),
            came: Vec::new(heap),
            other: None,
            work: Vec::new(heap),
        }
    }

    pub(crate) fn follow(heap: Global, table: Table<'_>) -> Result<Paths, AllocError> {
        let n = table.code.len();
        let mut paths = Paths {
            rows: vec![in heap; Row::unreached(); n]?,
            came: vec![in heap; 0usize; n]?,
            other: None,
            work: Vec::new(heap),
        };
        for procedure in table.procedures {
            let row = entry_row(table, *procedure).unwrap_or(Row::unreached());
            let first = procedure.first as usize;
            if let Step::Ends = paths.hand(first, first, row)? {
                break;
            }
            if let Step::Ends = paths.settle(table)? {
                break;
            }
        }
        Ok(paths)
    }

    // Each instruction waits once at most.
    fn settle(&mut self, table: Table<'_>) -> Result<Step, AllocError> {
        for _ in 0..table.code.len() {
            let Some(i) = self.work.pop() else {
                break;
            };
            let row = self.row(i);
            let Ok(sent) = transfer(table, i, row) else {
                return Ok(Step::Ends);
            };
            if let Step::Ends = self.hand_on(i, sent)? {
                return Ok(Step::Ends);
            }
        }
        Ok(Step::GoesOn)
    }

    // To the label first, then to the next instruction.
    fn hand_on(&mut self, i: usize, sent: Sent) -> Result<Step, AllocError> {
        let (first, second) = sent.way.successors(i);
        for n in [first, second].into_iter().flatten() {
            if let Step::Ends = self.hand(i, n, sent.row)? {
                return Ok(Step::Ends);
            }
        }
        Ok(Step::GoesOn)
    }

    fn hand(&mut self, from: usize, n: usize, row: Row) -> Result<Step, AllocError> {
        let Some(place) = self.rows.get_mut(n) else {
            return Ok(Step::Ends);
        };
        if !place.is_reached() {
            *place = row;
            if let Some(came) = self.came.get_mut(n) {
                *came = from;
            }
            self.work.push(n)?;
            return Ok(Step::GoesOn);
        }
        if *place == row {
            return Ok(Step::GoesOn);
        }
        self.other = Some(Other { row, from });
        Ok(Step::Ends)
    }

    // The instruction that the stack before this one came from.
    pub(crate) fn came(&self, n: usize) -> usize {
        self.came.get(n).copied().unwrap_or(n)
    }

    pub(crate) fn row(&self, n: usize) -> Row {
        self.rows.get(n).copied().unwrap_or(Row::unreached())
    }
}
