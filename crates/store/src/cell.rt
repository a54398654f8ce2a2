use sheet::kind::Kind;
use sheet::value::Value;

// A cell of the store. A record whose value is no value is no cell, and means a free one.
#[derive(Clone, Copy, PartialEq, Debug, Drop)]
pub enum Cell {
    Free,
    Mark(i32), // a link, a register kept, or a place in the code
    Working(Value), // on the stack
    Data(Value), // declared, with its value
    Blank(Kind), // declared, with no value yet
}
