ghost use Rattle.std.specs.Prelude.{◌≡◌};
ghost use Rattle.rules.specs.Lookups.{contents_of};
ghost use Rattle.rules.specs.Effects.{one, two, next as goes_on, calls, effect_of, successors};
ghost use Rattle.rules.specs.EffectLaws.{EffectsAreSound};

use crate::lookup::{natural, procedure_of};
use sheet::instruction::Instruction;
use sheet::kind::Kind;
use sheet::mnemonic::Mnemonic;
use sheet::procedure::Procedure;
use sheet::table::Table;

// What an instruction takes from the stack.
#[derive(Clone, Copy, Drop)]
pub enum Takes {
    Kinds(Option<Kind>, Option<Kind>), // the top first
    Parameters(Procedure), // the procedure's parameters, the last on top
    Call(Procedure), // these, and below them a mark that leads to the procedure's parent
}

// What it gives.
#[derive(Clone, Copy, Drop)]
pub enum Gives {
    Nothing,
    One(Kind),
    Two(Kind), // the kind twice
    Mark(usize), // the mark that leads that many links up
}

// Where it goes on.
#[derive(Clone, Copy, Drop)]
pub enum Way {
    Halt, // nowhere, with any stack
    Next,
    Jump(usize),
    Fork(usize), // the label, or the next instruction
}

impl Way {
    // The instructions that it leads to from instruction n, the label first.
    pub fn successors(self, n: usize) -> (Option<usize>, Option<usize>)
        ensures { result ≡ successors self n }
    {
        match self {
            Way::Halt => (None, None),
            Way::Next => (n.checked_add(1), None),
            Way::Jump(label) => (Some(label), None),
            Way::Fork(label) => (Some(label), n.checked_add(1)),
        }
    }
}

#[derive(Clone, Copy, Drop)]
pub struct Effect {
    pub takes: Takes,
    pub gives: Gives,
    pub way: Way,
}

const NONE: Takes = Takes::Kinds(None, None);

fn one(top: Kind) -> Takes
    ensures { result ≡ one top }
{
    Takes::Kinds(Some(top), None)
}

fn two(top: Kind, below: Kind) -> Takes
    ensures { result ≡ two top below }
{
    Takes::Kinds(Some(top), Some(below))
}

fn goes_on(takes: Takes, gives: Gives) -> Effect
    ensures { result ≡ goes_on takes gives }
{
    Effect {
        takes,
        gives,
        way: Way::Next,
    }
}

fn call(procedure: Procedure) -> Effect
    ensures { result ≡ calls procedure }
{
    let gives = procedure.result.map_or(Gives::Nothing, Gives::One);
    goes_on(Takes::Call(procedure), gives)
}

// What instruction n, which is x, takes and gives, and where it goes on.
#[tactic(auto, using(crate::proofs::EffectLaws::effects_are_sound))]
pub fn effect_of(table: Table<'_>, n: usize, x: Instruction) -> Effect
    ensures value { result ≡ effect_of (contents_of table.entry) n x }
    ensures law { EffectsAreSound }
{
    // A missing letter counts as a, so that every instruction has an effect; the rules of operands refuse it.
    let t = x.t.unwrap_or(Kind::Address);
    let t2 = x.t2.unwrap_or(Kind::Address);
    let p = natural(x.p);
    let q = natural(x.q);
    match x.mnemonic {
        Mnemonic::Add | Mnemonic::Sub | Mnemonic::Mul | Mnemonic::Div => goes_on(
            two(t, t),
            Gives::One(t),
        ),
        Mnemonic::Equ
        | Mnemonic::Neq
        | Mnemonic::Les
        | Mnemonic::Leq
        | Mnemonic::Grt
        | Mnemonic::Geq => goes_on(two(t, t), Gives::One(Kind::Boolean)),
        Mnemonic::Neg | Mnemonic::Inc | Mnemonic::Dec => goes_on(one(t), Gives::One(t)),
        Mnemonic::And | Mnemonic::Or => goes_on(
            two(Kind::Boolean, Kind::Boolean),
            Gives::One(Kind::Boolean),
        ),
        Mnemonic::Not => goes_on(one(Kind::Boolean), Gives::One(Kind::Boolean)),
        Mnemonic::Ldc | Mnemonic::Ldo | Mnemonic::Lod | Mnemonic::In => goes_on(
            NONE,
            Gives::One(t),
        ),
        Mnemonic::Sro | Mnemonic::Str | Mnemonic::Out => goes_on(one(t), Gives::Nothing),
        Mnemonic::Lda => goes_on(NONE, Gives::One(Kind::Address)),
        Mnemonic::Ind => goes_on(one(Kind::Address), Gives::One(t)),
        Mnemonic::Sto => goes_on(two(t, Kind::Address), Gives::Nothing),
        Mnemonic::Dpl => goes_on(one(t), Gives::Two(t)),
        Mnemonic::Ixa => goes_on(two(Kind::Integer, Kind::Address), Gives::One(Kind::Address)),
        Mnemonic::Chk => goes_on(one(Kind::Integer), Gives::One(Kind::Integer)),
        Mnemonic::Ujp => Effect {
            takes: NONE,
            gives: Gives::Nothing,
            way: Way::Jump(q),
        },
        Mnemonic::Fjp => Effect {
            takes: one(Kind::Boolean),
            gives: Gives::Nothing,
            way: Way::Fork(q),
        },
        Mnemonic::Conv => goes_on(one(t), Gives::One(t2)),
        Mnemonic::Mst => goes_on(NONE, Gives::Mark(p)),
        Mnemonic::Cup => call(procedure_of(table, q)),
        Mnemonic::Ent => goes_on(Takes::Parameters(procedure_of(table, n)), Gives::Nothing),
        Mnemonic::Retf | Mnemonic::Retp | Mnemonic::Hlt => Effect {
            takes: NONE,
            gives: Gives::Nothing,
            way: Way::Halt,
        },
    }
}
