// Places in the code and places in the store are wrapped apart, so that neither is taken for the other.
// Both are signed: an address is any number of its kind, and a mark that was tampered with may bring any number back.

#[derive(Clone, Copy, PartialEq, Eq, Debug, Drop)]
pub struct CodePlace(pub i32);

#[derive(Clone, Copy, PartialEq, Eq, Debug, Drop)]
pub struct StorePlace(pub i32);
