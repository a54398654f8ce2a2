// What each number that a call answers means, in plain words.
ghost use Rattle.std.specs.Prelude.{◌≡◌};
ghost use Rattle.explain.specs.Answers.{Explains, is_answer, between};

use std::fmt;

#[derive(Clone, Copy, Drop)]
pub struct Explanation {
    pub number: u64,
    pub found: &'static str, // what was found wrong
    pub place: &'static str, // what the place that goes with the number is
    pub left: &'static str, // what is left as it was
    pub look: &'static str, // what to look at
}

impl fmt::Display for Explanation {
    fn fmt<W: fmt::Write>(&self, f: &mut fmt::Formatter<W>) -> fmt::Result {
        writeln!(f, "{}: {}", self.number, self.found)?;
        writeln!(f, "  place    {}", self.place)?;
        writeln!(f, "  left     {}", self.left)?;
        writeln!(f, "  look at  {}", self.look)
    }
}

const ALL: &'static str = "everything is as it was";

// Of a refusal in a text.
fn in_text(number: u64, found: &'static str, look: &'static str) -> Explanation
    ensures { result.number ≡ number }
{
    Explanation {
        number,
        found,
        place: "the first such line, from 1",
        left: ALL,
        look,
    }
}

// Of a table, before any path is followed.
fn in_table(
    number: u64,
    found: &'static str,
    place: &'static str,
    look: &'static str,
) -> Explanation
    ensures { result.number ≡ number }
{
    Explanation {
        number,
        found,
        place,
        left: ALL,
        look,
    }
}

// Of a table, on a path.
fn on_path(number: u64, found: &'static str, look: &'static str) -> Explanation
    ensures { result.number ≡ number }
{
    Explanation {
        number,
        found,
        place: "the instruction, from 0",
        left: "everything is as it was, but judge leaves a row without a stack and a place 0 for each instruction",
        look,
    }
}

// Of a step of a run.
fn in_run(number: u64, found: &'static str, look: &'static str) -> Explanation
    ensures { result.number ≡ number }
{
    Explanation {
        number,
        found,
        place: "the count of steps done before the one that was stopped",
        left: "registers, store and host are as after that many steps",
        look,
    }
}

fn of_end(number: u64) -> Option<Explanation>
    ensures { Explains (between 0 1 number) number result }
{
    let explanation = match number {
        0 => Explanation {
            number,
            found: "nothing is wrong: the table is accepted, or all steps asked for are done",
            place: "how many instructions paths reach, or the count of steps done",
            left: "what lies past the lists that were filled; a run stands after its steps",
            look: "nothing: run the table, or ask for more steps",
        },
        1 => Explanation {
            number,
            found: "nothing is wrong: the run stands at hlt and is over",
            place: "the count of steps done, hlt not among them",
            left: "registers, store and host are as after that many steps",
            look: "the values written",
        },
        _ => return None,
    };
    Some(explanation)
}

fn of_text(number: u64) -> Option<Explanation>
    ensures { Explains (between 11 13 number) number result }
{
    let explanation = match number {
        11 => in_text(
            number,
            "a line has a wrong length, letter, mnemonic or column",
            "the columns of that line; the listing marks those at fault",
        ),
        12 => in_text(
            number,
            "a number is out of its range, or a line is out of order",
            "the numbers in that line, and its place: procedures with their cells, then instructions",
        ),
        13 => Explanation {
            place: "the first line without room, from 1; 0 for the answers",
            ..in_text(
                number,
                "a list that was lent is too short for the text, or for the answers of a list of calls",
                "the lengths of the lists lent, or a shorter text",
            )
        },
        _ => return None,
    };
    Some(explanation)
}

fn of_table(number: u64) -> Option<Explanation>
    ensures { Explains (between 20 27 number) number result }
{
    let explanation = match number {
        20 => in_table(
            number,
            "a rule of tables is broken: by the counts, or by a procedure's parent, first instruction or sizes",
            "the lowest such procedure, from 0; 0 for the counts",
            "the line of that procedure and the data cells after it",
        ),
        21 => in_table(
            number,
            "an instruction has a letter or operand that is not allowed, or ent, retf or retp is out of place",
            "the lowest such instruction, from 0",
            "the letters and operands of that instruction; in the listing a ! marks one that is not due",
        ),
        22 => on_path(
            number,
            "the stack before an instruction does not end in what it takes",
            "the stack before it, and the instructions that lead to it",
        ),
        23 => on_path(
            number,
            "the stack after an instruction fills more cells than its procedure's ent allows",
            "operand p of that ent; a mark fills five cells, a value one",
        ),
        24 => Explanation {
            place: "the instruction where they meet, from 0",
            ..on_path(
                number,
                "two paths bring different stacks to an instruction, or a row lent to admit is another",
                "both ways to that instruction: they have to leave the same stack",
            )
        },
        25 => on_path(
            number,
            "an instruction goes on past the end of its procedure",
            "the last instruction of the procedure: it has to be hlt, retf, retp or ujp",
        ),
        26 => in_table(
            number,
            "fewer rows or places of the work list are lent than there are instructions",
            "0",
            "the lengths lent: one of each for an instruction",
        ),
        27 => in_table(
            number,
            "a row lent to admit fills more cells than its procedure's ent allows",
            "the instruction, from 0",
            "where that row comes from: judge leaves none such",
        ),
        _ => return None,
    };
    Some(explanation)
}

// Of hosts and stores.
fn of_world(number: u64) -> Option<Explanation>
    ensures { Explains (between 31 35 number) number result }
{
    let explanation = match number {
        31 => in_run(
            number,
            "in: no value waits",
            "the values handed in, which are too few",
        ),
        32 => in_run(
            number,
            "in: the first value waiting has another kind, or is no value",
            "that value, and the letter of the in",
        ),
        33 => in_run(
            number,
            "out: the host has no room for a value",
            "the room that the host was given",
        ),
        34 => in_table(
            number,
            "the store has not 5 to 65,536 cells, or not as many as when the run began",
            "0",
            "the store lent: it has to be of one length for all calls of a run",
        ),
        35 => in_table(
            number,
            "a look at a place below 0 or above SP, or a place past the store",
            "none: the number is all that is answered",
            "the report of the run: places from 0 to SP may be looked at",
        ),
        _ => return None,
    };
    Some(explanation)
}

fn of_run(number: u64) -> Option<Explanation>
    ensures { Explains (between 41 47 number) number result }
{
    let explanation = match number {
        41 => in_run(
            number,
            "a result lies outside its kind",
            "the values typed: these are too large for the table, or too small",
        ),
        42 => in_run(
            number,
            "chk: a value is outside its bounds",
            "the value typed, against the operands of that chk",
        ),
        43 => in_run(
            number,
            "a division by zero",
            "the divisor, which is on top of the stack",
        ),
        44 => in_run(
            number,
            "ent: the store has no room for the frame, EP would reach NP",
            "the length of the store, and calls that go on calling",
        ),
        45 => in_run(
            number,
            "ind or sto: the address names no data cell, or a place that is not from 0 to SP",
            "how the address was made: by lda, ldc a, ixa, inc a or dec a",
        ),
        46 => in_run(
            number,
            "ind or sto: the data cell has another kind",
            "the letter of the instruction, and the cell that the address names",
        ),
        47 => in_run(
            number,
            "a data cell that is read, or the result of a retf, has no value yet",
            "the instructions before it: one of them has to write that cell first",
        ),
        _ => return None,
    };
    Some(explanation)
}

// What no run of an admitted table meets by itself.
fn of_machine(number: u64) -> Option<Explanation>
    ensures { Explains (between 60 63 number) number result }
{
    let look = "what else writes the store: no run of an admitted table stops so by itself";
    let explanation = match number {
        60 => in_run(
            number,
            "a cell that the step needs is missing, or of another kind",
            look,
        ),
        61 => in_run(
            number,
            "a mark that the step needs is missing, or holds a number out of its range",
            look,
        ),
        62 => in_run(number, "the stack has no room, SP would pass EP", look),
        63 => in_run(number, "PC lies outside the table", look),
        _ => return None,
    };
    Some(explanation)
}

// What a number means that some call answers.
pub fn explain(number: u64) -> Option<Explanation>
    ensures { Explains (is_answer number) number result }
{
    match number {
        0..=1 => of_end(number),
        11..=13 => of_text(number),
        20..=27 => of_table(number),
        31..=35 => of_world(number),
        41..=47 => of_run(number),
        60..=63 => of_machine(number),
        _ => None,
    }
}
