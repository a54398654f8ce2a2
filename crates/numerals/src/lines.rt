ghost use Rattle.std.specs.Prelude.{◌≡◌, ◌+◌, ◌<◌, ◌≤◌, ◌∷◌, ◌++◌, length, take, drop};
ghost use Rattle.std.specs.Iterator.{YieldsFirstRef, item_count};
ghost use Rattle.numerals.specs.Lines.{lines as split, lines_left};

// The length of the first line of `text`, its end counted.
fn line_length(text: &[u8]) -> usize
    ensures within { result ≤ length text.now }
    ensures some { 0 < length text.now → 0 < result }
    ensures first { 0 < length text.now → split text.now ≡ take result text.now ∷ split (drop result text.now) }
{
    match text.iter().position(|b| *b == b'\n') {
        Some(end) => end + 1,
        None => text.len(),
    }
}

// The first line of `text`, its end included, and what follows it; both are empty where the text is.
pub fn split_line(text: &[u8]) -> (&[u8], &[u8])
    ensures parts { text.now ≡ result.0.now ++ result.1.now }
    ensures first { 0 < length text.now → split text.now ≡ result.0.now ∷ split result.1.now }
    ensures some { 0 < length text.now → 0 < length result.0.now }
    ensures len { length result.0.now + length result.1.now ≡ length text.now }
{
    text.split_at(line_length(text))
}

// The lines of a text, each with its end; the last may have none.
#[derive(Drop)]
pub struct Lines<'a> {
    rest: &'a [u8],
}

impl<'a> Lines<'a> {
    pub fn new(text: &'a [u8]) -> Lines<'a>
        ensures lines { lines_left result ≡ split text.now }
        ensures within { length (lines_left result) ≤ length text.now }
    {
        Lines { rest: text }
    }

    // The text whose lines are still to come.
    pub fn as_slice(&self) -> &'a [u8]
        ensures { split result.now ≡ lines_left self.now }
    {
        self.rest
    }
}

impl<'a> Iterator for Lines<'a> {
    type Item = &'a [u8];

    ghost next_gives = { YieldsFirstRef lines_left };

    ghost remaining = { item_count lines_left };

    fn next(&mut self) -> Option<&'a [u8]> {
        if self.rest.is_empty() {
            return None;
        }
        let (line, rest) = split_line(self.rest);
        *self = Lines { rest };
        Some(line)
    }
}

// How many lines a text has; no list needs more places for what the lines hold.
pub fn line_count(text: &[u8]) -> usize
    ensures { result ≡ length (split text.now) }
{
    Lines::new(text).count()
}
