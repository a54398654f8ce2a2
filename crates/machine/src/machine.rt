use crate::registers::Registers;

// The registers of a run, and the store that it runs over, which is lent.
// Host and next place are no fields: few instructions take the host, and ujp, retf and retp go on elsewhere.
#[derive(Drop)]
pub struct Machine<'s, S> {
    pub regs: Registers,
    pub store: &'s mut S,
}
