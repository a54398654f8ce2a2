ghost use Rattle.std.specs.Prelude.{◌≡◌};
ghost use Rattle.rows.specs.Entries.{entry_of, proper, byte_of, cells_of_entry};

use sheet::kind::Kind;

// What lies on a stack under judgement: a value of a kind, or the five marks of a call to come,
// with how many static links lead to the frame that the callee's declaration lies in.
#[derive(Clone, Copy, PartialEq, Eq, Debug, Drop)]
pub enum Entry {
    Value(Kind),
    Mark(u8),
}

// The entry that a byte stands for; a byte of no entry reads as a mark that no stack has.
// No TryFrom, and letters as bytes: rows are lent, so that a refusal would have to be told apart at every byte.
impl From<u8> for Entry {
    ghost from_gives = { λ x y. y ≡ entry_of x };

    fn from(byte: u8) -> Entry {
        match byte {
            b'a' => Entry::Value(Kind::Address),
            b'b' => Entry::Value(Kind::Boolean),
            b'c' => Entry::Value(Kind::Character),
            b'i' => Entry::Value(Kind::Integer),
            b'r' => Entry::Value(Kind::Real),
            _ => Entry::Mark(byte),
        }
    }
}

impl From<Entry> for u8 {
    ghost from_gives = { λ x y. y ≡ byte_of x };

    fn from(entry: Entry) -> u8 {
        match entry {
            Entry::Value(kind) => kind.letter(),
            Entry::Mark(links) => links,
        }
    }
}

impl Entry {
    // Whether a stack may hold it: a mark is 0 to 7.
    pub fn is_proper(self) -> bool
        ensures { result ≡ proper self }
    {
        match self {
            Entry::Value(_) => true,
            Entry::Mark(links) => links < 8,
        }
    }

    // The cells of the store that it stands for.
    pub fn cells(self) -> usize
        ensures { result ≡ cells_of_entry self }
    {
        match self {
            Entry::Value(_) => 1,
            Entry::Mark(_) => 5,
        }
    }
}
