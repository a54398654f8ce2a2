use crate::kind::Kind;
use crate::mnemonic::Mnemonic;

// An instruction as its line gives it; a letter '-' is None.
#[derive(Clone, Copy, PartialEq, Eq, Debug, Drop)]
pub struct Instruction {
    pub mnemonic: Mnemonic,
    pub t: Option<Kind>,
    pub t2: Option<Kind>,
    pub p: i32,
    pub q: i32,
}

impl Instruction {
    // What stands where there is no instruction.
    pub const NONE: Instruction = Instruction {
        mnemonic: Mnemonic::Hlt,
        t: None,
        t2: None,
        p: 0,
        q: 0,
    };
}
