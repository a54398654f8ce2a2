// The instructions that work on the stack alone, the jumps, and those that speak with the host.
ghost use Rattle.std.specs.Prelude.{◌≡◌, ◌-◌, MatchResult};
ghost use Rattle.host.specs.Hosts.{next_value, taken};
ghost use Rattle.machine.specs.Machine.{CarriesOut, CarriesOutWith};
ghost use Rattle.machine.specs.States.{regs_at, pushed, dropped};
ghost use Rattle.machine.specs.Steps as step;

use arith::operation::{binary, unary};
use host::host::Host;
use machine::machine::Machine;
use machine::registers::Registers;
use reads::cells::{put_at, stacked_at, typed_at};
use sheet::kind::Kind;
use sheet::operation::{Binary, Unary};
use sheet::place::CodePlace;
use sheet::stop::Stop;
use sheet::value::Value;
use store::cell::Cell;
use store::store::Store;

// The registers once PC is `next` and the `count` topmost cells are taken.
pub(crate) fn dropped(regs: Registers, count: u32, next: CodePlace) -> Registers
    ensures { result ≡ regs_at next (regs.height - count) regs.mp regs.ep regs.last }
{
    Registers {
        pc: next,
        height: regs.height.saturating_sub(count),
        ..regs
    }
}

// PC becomes `next`, the `count` topmost cells are taken, and x is pushed, unless SP would pass EP.
pub(crate) fn push<S: Store>(
    machine: &mut Machine<'_, S>,
    x: Value,
    count: u32,
    next: CodePlace,
) -> Result<(), Stop>
    ensures { CarriesOut S.cells result machine.old machine.new (λ s. pushed x (dropped next count s)) }
{
    let mut regs = dropped(machine.regs, count, next);
    if regs.height > u32::from(regs.ep) {
        return Err(Stop::StackFull);
    }
    put_at(machine.store, regs.height, Cell::Working(x));
    regs.height += 1;
    machine.regs = regs;
    Ok(())
}

pub fn two<S: Store>(machine: &mut Machine<'_, S>, op: Binary, next: CodePlace) -> Result<(), Stop>
    ensures { CarriesOut S.cells result machine.old machine.new (step.two op next) }
{
    let top = stacked_at(machine.store, machine.regs.height, 0)?;
    let lower = stacked_at(machine.store, machine.regs.height, 1)?;
    let x = binary(op, lower, top)?;
    push(machine, x, 2, next)
}

pub fn one<S: Store>(machine: &mut Machine<'_, S>, op: Unary, next: CodePlace) -> Result<(), Stop>
    ensures { CarriesOut S.cells result machine.old machine.new (step.one op next) }
{
    let top = stacked_at(machine.store, machine.regs.height, 0)?;
    let x = unary(op, top)?;
    push(machine, x, 1, next)
}

pub fn ldc<S: Store>(
    machine: &mut Machine<'_, S>,
    constant: Value,
    next: CodePlace,
) -> Result<(), Stop>
    ensures { CarriesOut S.cells result machine.old machine.new (step.ldc constant next) }
{
    push(machine, constant, 0, next)
}

pub fn dpl<S: Store>(machine: &mut Machine<'_, S>, kind: Kind, next: CodePlace) -> Result<(), Stop>
    ensures { CarriesOut S.cells result machine.old machine.new (step.dpl kind next) }
{
    let top = typed_at(machine.store, kind, machine.regs.height, 0)?;
    push(machine, top, 0, next)
}

pub fn ujp<S: Store>(machine: &mut Machine<'_, S>, target: CodePlace) -> Result<(), Stop>
    ensures { CarriesOut S.cells result machine.old machine.new (step.ujp target) }
{
    machine.regs.pc = target;
    Ok(())
}

pub fn fjp<S: Store>(
    machine: &mut Machine<'_, S>,
    target: CodePlace,
    next: CodePlace,
) -> Result<(), Stop>
    ensures { CarriesOut S.cells result machine.old machine.new (step.fjp target next) }
{
    let top = stacked_at(machine.store, machine.regs.height, 0)?;
    let target = if bool::try_from(top)? { next } else { target };
    machine.regs = dropped(machine.regs, 1, target);
    Ok(())
}

// The next value waiting; a refusal leaves the host as it was, which the trait's contract does not say by outcomes.
fn take<H: Host>(kind: Kind, host: &mut H) -> Result<Value, Stop>
    ensures value { result ≡ next_value kind (H.means host.old).waiting }
    ensures after { MatchResult result (λ _. H.means host.new ≡ taken kind (H.means host.old)) (λ _. H.means host.new ≡ H.means host.old) }
{
    host.take(kind)
}

pub fn input<S: Store, H: Host>(
    machine: &mut Machine<'_, S>,
    kind: Kind,
    next: CodePlace,
    host: &mut H,
) -> Result<(), Stop>
    ensures { CarriesOutWith S.cells result machine.old (H.means host.old) machine.new (H.means host.new) (step.inp kind next) }
{
    if machine.regs.height > u32::from(machine.regs.ep) {
        return Err(Stop::StackFull);
    }
    let x = take(kind, host)?;
    push(machine, x, 0, next)
}

pub fn output<S: Store, H: Host>(
    machine: &mut Machine<'_, S>,
    kind: Kind,
    next: CodePlace,
    host: &mut H,
) -> Result<(), Stop>
    ensures { CarriesOutWith S.cells result machine.old (H.means host.old) machine.new (H.means host.new) (step.out kind next) }
{
    let x = typed_at(machine.store, kind, machine.regs.height, 0)?;
    host.put(x)?;
    machine.regs = dropped(machine.regs, 1, next);
    Ok(())
}
