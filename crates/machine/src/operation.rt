use sheet::kind::Kind;
use sheet::operation::{Binary, Unary};
use sheet::place::CodePlace;
use sheet::value::Value;

// An instruction decoded: what it does, with its operands.
// Offsets and counts are narrow, so that one added to a register has 32 bits.
// The operands have no names: the definitions pass a variant as a function of its operands.
#[derive(Clone, Copy, Drop)]
pub enum Operation {
    Two(Binary), // two values taken, one given
    One(Unary), // one value taken, one given
    Ldc(Value),
    Dpl(Kind),
    Ldo(Kind, u16), // kind, offset
    Sro(Kind, u16), // kind, offset
    Lod(Kind, u16, u16), // kind, links, offset
    Str(Kind, u16, u16), // kind, links, offset
    Lda(u16, u16), // links, offset
    Ind(Kind),
    Sto(Kind),
    Ujp(CodePlace),
    Fjp(CodePlace),
    In(Kind),
    Out(Kind),
    Mst(u16), // links
    Cup(u16, CodePlace), // parameters, the callee's first instruction
    Ent(u16, u16), // room, size
    Retf,
    Retp,
    Hlt,
}
