ghost use Rattle.std.specs.Prelude.{◌≡◌};
ghost use Rattle.store.specs.Refusals.{refusal_number};

// A place in a store, counted from its first cell. An address may be negative; a slot is not, but may lie past the end.
#[derive(Clone, Copy, PartialEq, Eq, Debug, Drop)]
pub struct Slot(pub u32);

// 35: a slot past the end of its store.
#[derive(Clone, Copy, PartialEq, Eq, Debug, Drop)]
pub struct PastTheEnd;

impl PastTheEnd {
    // A method, since `u8::from(fault)` would not say what the byte is.
    pub fn number(self) -> u8
        ensures { result ≡ refusal_number self }
    {
        35
    }
}
