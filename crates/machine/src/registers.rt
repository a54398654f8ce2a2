use sheet::place::CodePlace;

// A store has 5 to 65,536 cells, so every place in it is a u16.
#[derive(Clone, Copy, Drop)]
pub struct Registers {
    pub pc: CodePlace,
    pub height: u32, // SP + 1: over a store that was tampered with SP may be -1
    pub mp: u16,
    pub ep: u16,
    pub last: u16, // NP - 1
}
