ghost use Rattle.std.specs.Prelude.{◌≡◌, ◌*◌, ◌≤◌, length, IfOk};
ghost use Rattle.host.specs.Hosts.{next_value, taken, put_answer, written};
ghost use Rattle.host.specs.Texts.{verdict, lines_of, AllValues};

use crate::host::Host;
use crate::kinds::is_of;
use crate::line::line_of;
use crate::scan::first_value;
use columns::fault::TextFault;
use columns::value_line::LINE;
use columns::value_text::read_values;
use sheet::kind::Kind;
use sheet::stop::Stop;
use sheet::value::Value;

// A host over a lent text of value lines and lent bytes for the lines written.
#[derive(Drop)]
pub struct Lines<'a> {
    input: &'a [u8], // what still waits
    output: &'a mut [u8],
    done: usize, // how many lines are written; no pile of bytes, since each is 22 of them
    ghost ok: { 22 * done ≤ length output.now },
}

// Refuses a text with the fault of its first line at fault.
fn check(input: &[u8]) -> Result<(), TextFault>
    ensures { result ≡ verdict input.now }
{
    // The scans of a text stand in `columns` alone; no list is lent them here, so one too short for the values is no fault.
    match read_values(input, &mut []) {
        Ok(_) | Err(TextFault::TooLong(_)) => Ok(()),
        Err(fault) => Err(fault),
    }
}

impl<'a> Lines<'a> {
    ghost use Rattle.host.specs.Meanings.{meaning_of_lines, meaning_made, lines_begun, text_written};

    // The clause `name`, here and at each host's take and put: which list is lent is said of its own field, and the trait has none.
    pub fn over(input: &'a [u8], output: &'a mut [u8]) -> Result<Lines<'a>, TextFault>
        ensures name { IfOk result (λ h. h.output.ghost_name ≡ output.entry.ghost_name) }
        ensures held { meaning_made result ≡ lines_begun input.now (length output.old) }
    {
        check(input)?;
        Ok(Lines {
            input,
            output,
            done: 0,
        })
    }

    // The lines written so far: where every value put was one, exactly the lines of these values.
    #[tactic(auto, using(crate::proofs::Exact::exact_lines))]
    pub fn text(&self) -> &[u8]
        ensures value { result.now ≡ text_written self.now }
        ensures lines { AllValues (meaning_of_lines self.now).written → result.now ≡ lines_of (meaning_of_lines self.now).written }
    {
        &self.output[..LINE * self.done]
    }
}

impl Host for Lines<'_> {
    ghost use Rattle.host.specs.Meanings.{meaning_of_lines};

    ghost means = { meaning_of_lines };

    fn take(&mut self, kind: Kind) -> Result<Value, Stop>
        ensures name { self.new.output.ghost_name ≡ self.old.output.ghost_name }
        ensures value { result ≡ next_value kind (meaning_of_lines self.old).waiting }
        ensures after { meaning_of_lines self.new ≡ taken kind (meaning_of_lines self.old) }
    {
        let Some(found) = first_value(self.input) else {
            return Err(Stop::NothingWaits);
        };
        if !is_of(kind, found.value) {
            return Err(Stop::WrongInput);
        }
        self.input = found.rest;
        Ok(found.value)
    }

    #[tactic(auto, using(crate::proofs::Filling::copy_line))]
    fn put(&mut self, x: Value) -> Result<(), Stop>
        ensures name { self.new.output.ghost_name ≡ self.old.output.ghost_name }
        ensures value { result ≡ put_answer (meaning_of_lines self.old).room }
        ensures after { meaning_of_lines self.new ≡ written x (meaning_of_lines self.old) }
    {
        let end = LINE * self.done;
        if self.output.len() - end < LINE {
            return Err(Stop::NoRoom);
        }
        // By index, since `get_mut` does not tell what the bytes end as.
        self.output[end..end + LINE].copy_from_slice(&line_of(x));
        self.done += 1;
        Ok(())
    }
}
