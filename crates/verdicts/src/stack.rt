// A stack as a word: the bottom first, a letter for a value and a digit for a mark.
use pile::Pile;
use rows::entry::Entry;
use rows::row::Row;

fn read_entry(byte: u8) -> Option<Entry> {
    match byte {
        b'a' | b'b' | b'c' | b'i' | b'r' => Some(Entry::from(byte)),
        b'0'..=b'7' => Some(Entry::Mark(byte - b'0')),
        _ => None,
    }
}

fn read_entries(word: &str) -> Option<Row> {
    let mut places = [Entry::Mark(0); 40];
    let mut stack = Pile::over(&mut places);
    for byte in word.bytes() {
        stack.push(read_entry(byte)?).ok()?;
    }
    Row::pack(&stack)
}

// `.` is the empty stack, `-` is no row.
pub(crate) fn read_row(word: &str) -> Option<Row> {
    match word {
        "." => Some(Row::empty()),
        "-" => Some(Row::unreached()),
        _ => read_entries(word),
    }
}
