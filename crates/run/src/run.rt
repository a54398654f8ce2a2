ghost use Rattle.std.specs.Prelude.{◌≡◌, length};
ghost use Rattle.run.specs.Calls.{begins, begin_cells, refusal_number, fits, Gone, gone, look_at, looked, stack_place, reported};

use crate::answer::{Finish, LookFault, Report, Went};
use crate::clear::clear;
use admit::Passed;
use host::host::Host;
use machine::machine::Machine;
use machine::registers::Registers;
use reads::cells::reached;
use sheet::place::{CodePlace, StorePlace};
use steps::go::go_on;
use store::cell::Cell;
use store::slot::Slot;
use store::store::Store;

// A passed table under way. Only `begin` makes one, and `close` gives the table back.
#[derive(Drop)]
pub struct Run<'a> {
    passed: Passed<'a>,
    regs: Registers,
}

// 34: a run begins over 5 to 65,536 cells. The passed table comes back unspent.
#[derive(Drop)]
pub struct Refused<'a> {
    pub passed: Passed<'a>,
}

impl<'a> Refused<'a> {
    // A method, since `u8::from` would not say that it is the number of a refusal.
    pub fn number(&self) -> u8
        ensures { result ≡ refusal_number self.now }
    {
        34
    }
}

// Uses up a passed table and frees every cell; a refusal leaves the store as it was.
pub fn begin<'a, S: Store>(passed: Passed<'a>, store: &mut S) -> Result<Run<'a>, Refused<'a>>
    ensures value { result ≡ begins passed.entry (length (S.cells store.old)) }
    ensures after { S.cells store.new ≡ begin_cells (S.cells store.old) }
{
    let n = store.len();
    if !(5..=65536).contains(&n) {
        return Err(Refused { passed });
    }
    // The test above bounds both casts, and names the numbers of the rule, which a chain of `try_from` would not.
    clear(store, n as u32);
    let regs = Registers {
        pc: CodePlace(0),
        height: 5,
        mp: 0,
        ep: 4,
        last: (n - 1) as u16,
    };
    Ok(Run { passed, regs })
}

// The cell at a place from 0 to SP.
fn cell_at<S: Store>(store: &S, height: u32, place: StorePlace) -> Result<Cell, LookFault>
    ensures { result ≡ look_at place.0 height (S.cells store.now) }
{
    reached(place, height)
        .ok()
        .and_then(|x| store.read(Slot(x)).ok())
        .ok_or(LookFault::NotReached)
}

fn stack_place(height: u32) -> StorePlace
    ensures { result ≡ stack_place height }
{
    // A cast, bounded by the min: `try_from` would bring a refusal that cannot come.
    StorePlace(height.min(65536) as i32 - 1)
}

impl<'a> Run<'a> {
    // Whether the store is as long as the one that the run began over.
    fn fits<S: Store>(&self, store: &S) -> bool
        ensures { result ≡ fits self.now.regs.last (S.cells store.now) }
    {
        store.len() == usize::from(self.regs.last) + 1
    }

    // Steps until n are done, or until something ends the run sooner; length and last place are said apart, as at `step`.
    pub fn go<S: Store, H: Host>(&mut self, store: &mut S, host: &mut H, n: u32) -> Went
        ensures value { ◌≡◌ {A = Gone} (record { answer = result; run = self.new; cells = S.cells store.new; host = H.means host.new }) (gone n self.old (S.cells store.old) (H.means host.old)) }
        ensures kept { (length (S.cells store.new) ≡ length (S.cells store.old)) × (self.new.regs.last ≡ self.old.regs.last) }
    {
        if !self.fits(store) {
            return Went {
                count: 0,
                finish: Finish::OtherStore,
            };
        }
        let mut machine = Machine {
            regs: self.regs,
            store,
        };
        let gone = go_on(&mut machine, self.passed.table(), n, host);
        self.regs = machine.regs;
        Went {
            count: gone.count,
            finish: Finish::from(gone.ending),
        }
    }

    // The cell at a place from 0 to SP.
    pub fn look<S: Store>(&self, store: &S, place: StorePlace) -> Result<Cell, LookFault>
        ensures { result ≡ looked place self.now (S.cells store.now) }
    {
        if !self.fits(store) {
            return Err(LookFault::OtherStore);
        }
        cell_at(store, self.regs.height, place)
    }

    pub fn report(&self) -> Report
        ensures { result ≡ reported self.now.regs }
    {
        Report {
            pc: self.regs.pc,
            sp: stack_place(self.regs.height),
            mp: StorePlace(i32::from(self.regs.mp)),
            ep: StorePlace(i32::from(self.regs.ep)),
            np: StorePlace(i32::from(self.regs.last) + 1),
        }
    }

    pub fn close(self) -> Passed<'a>
        ensures { result ≡ self.entry.passed }
    {
        self.passed
    }
}
