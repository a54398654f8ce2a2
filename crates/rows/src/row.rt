ghost use Rattle.std.specs.Prelude.{◌≡◌, ◌≤◌, true, T, map, length, ◌&&◌, IsTrue, ◌↔◌, All};
ghost use Rattle.std.specs.List.{slice_get};
ghost use Rattle.rows.specs.Entries.{entry_of, proper};
ghost use Rattle.rows.specs.Rows.{entries, same, equal_records, EqualRecordsAreOne, is_row, no_row, empty_row, packed};
ghost use Rattle.pile.specs.Piles.{bottom_first};
ghost use Rattle.std.specs.Cmp.Rules.{comparing};
ghost use Rattle.std.proofs.Common.{rules};

use crate::entry::Entry;
use pile::Pile;

// A record is a row where its length is at most forty, each byte before it is an entry and each byte past it is 0.
// Any other record is unreached. So two rows are equal exactly where their records are.
// Forty bytes by value, and no Option: rows are lent records, copied and written whole, and whatever bytes they hold mean something.
#[derive(Clone, Copy, Debug, Drop)]
pub struct Row {
    len: u8,
    bytes: [u8; 40],
}

// Not derived: the contract says of two rows that they are the same stack.
impl PartialEq for Row {
    ghost eq = { equal_records };

    ghost laws = { Prim.search (comparing, rules) };

    // Equal records are the same record, and of rows the same stack.
    fn eq(&self, other: &Row) -> bool
        ensures eq { result ≡ equal_records self.now other.now }
        ensures same { T result → self.now ≡ other.now }
        ensures equal { self.now ≡ other.now → T result }
        ensures law { EqualRecordsAreOne }
        ensures stacks { is_row self.now ≡ true → is_row other.now ≡ true → result ≡ same (entries self.now) (entries other.now) }
    {
        self.len == other.len && self.bytes == other.bytes
    }
}

// By name, here and below: the contract ties the closure's answers to the rule, which `all` in place does not.
fn all_proper(bytes: &[u8]) -> bool
    ensures { IsTrue result ↔ All (λ b. proper (entry_of b) ≡ true) bytes.now }
{
    bytes.iter().all(|&byte| Entry::from(byte).is_proper())
}

fn all_blank(bytes: &[u8]) -> bool
    ensures { IsTrue result ↔ All (λ b. b ≡ 0) bytes.now }
{
    bytes.iter().all(|&byte| byte == 0)
}

impl Row {
    pub fn unreached() -> Row
        ensures { result ≡ no_row }
    {
        Row {
            len: 255,
            bytes: [0; 40],
        }
    }

    pub fn empty() -> Row
        ensures { result ≡ empty_row }
    {
        Row {
            len: 0,
            bytes: [0; 40],
        }
    }

    pub fn is_reached(self) -> bool
        ensures { result ≡ is_row self }
    {
        // By let-else: of `is_some_and` on two slices the check does not open what the closure answers.
        let Some((entries, rest)) = self.bytes.split_at_checked(self.len as usize) else {
            return false;
        };
        all_proper(entries) && all_blank(rest)
    }

    // How many entries it has; an unreached record may say any number.
    pub fn len(self) -> usize
        ensures { result ≡ self.len }
    {
        self.len as usize
    }

    // The bytes of its entries from the bottom, of a record that is a row or not.
    pub fn entry_bytes(&self) -> &[u8]
        ensures entries { map entry_of result.now ≡ entries self.now }
        ensures few { length result.now ≤ 40 }
    {
        &self.bytes[..self.len().min(40)]
    }

    // The i-th entry from the bottom, of a record that is a row or not.
    pub fn entry(self, i: usize) -> Option<Entry>
        ensures { result ≡ slice_get (entries self) i }
    {
        self.entry_bytes().get(i).map(|&byte| Entry::from(byte))
    }

    // The row of a stack, if it has at most forty entries and each is proper.
    pub fn pack(stack: &Pile<'_, Entry>) -> Option<Row>
        ensures { result ≡ packed (bottom_first stack.now) }
    {
        let entries = stack.as_slice();
        // A plain test, and a cast below: of a `try_from` with a filter the check does not see that the bytes have room.
        if entries.len() > 40 {
            return None;
        }
        let mut bytes = [0; 40];
        // By index, since a zip with `iter_mut` does not tell what the bytes end as
        for (i, entry) in entries.iter().enumerate() {
            if !entry.is_proper() {
                return None;
            }
            bytes[i] = u8::from(*entry);
        }
        Some(Row {
            len: entries.len() as u8,
            bytes,
        })
    }
}
