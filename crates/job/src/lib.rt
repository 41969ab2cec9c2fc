// The program's work whole: from the bytes of a job to the bytes of its answer.
#![tactic(auto)]

ghost use Rattle.std.specs.Prelude.{◌≡◌, []};
ghost use Rattle.image.specs.Judge.{judged};
ghost use Rattle.kernel.specs.Machine.{job_of};
ghost use Rattle.program.specs.Whole.{from_table, from_image, from_inputs, from_choices, printed, wrote, answered};
ghost use Rattle.job.specs.Steps.{shows, prints};

mod job_line;
mod ran;

use answer::Answer;
use frame::Frame;
use image::Image;
use job_line::{budget_of, numbers_of};
use ran::Ran;

// The bytes of the longest answer.
pub const LONGEST_ANSWER: usize = printing::ANSWER_LINE
    + printing::CELL_LINE * Image::CELLS as usize;

// The bytes of the longest job, which are those of its three lines and of its image, and one more: what stands past them changes no answer.
pub const LONGEST_JOB: usize = 9
    + (2 * Image::CHOICES + 1)
    + (8 * Image::INPUTS + 1)
    + 17 * Image::LINES
    + 1;

// Why a job is not run: the first of its lines that is missing or malformed, or what the image is refused with. Of that the number and a line
// that fits the answer: with an `image::Refusal` each step from the image up would have to say that its line fits.
#[derive(Clone, Copy, Debug, PartialEq, Eq)]
enum Refusal {
    Budget,
    Choices,
    Inputs,
    Image { number: u8, line: u32 },
}

impl Refusal {
    ghost use Rattle.answer.specs.Answer.{said};
    ghost use Rattle.kernel.specs.Run.{refused};
    ghost use Rattle.job.specs.Steps.{reason};

    // "Refusals give ff, the line, and zeros."
    fn answer(self) -> Answer
        ensures { said result ≡ (refused (reason self).number (reason self).line []).answer }
    {
        let (number, line) = match self {
            Refusal::Budget => (9, 0),
            Refusal::Choices => (9, 1),
            Refusal::Inputs => (9, 2),
            Refusal::Image { number, line } => (u32::from(number), line),
        };
        Answer {
            number,
            body: 0xff,
            place: line,
            time: 0,
            instructions: 0,
            choices: 0,
            inputs: 0,
            threads: 0,
        }
    }
}

// What a job comes to from an accepted table on.
fn from_table(table: &[u64], choices: &[u8], inputs: &[u32], budget: u32) -> Ran
    requires { (judged table.now).number ≡ 0 }
    ensures { shows result ≡ from_table (job_of table.now choices.now inputs.now budget) }
{
    let mut cells = [0u32; Image::CELLS as usize];
    let answer = run::run(table, choices, inputs, budget, &mut cells);
    let header = Frame::from(table[0]);
    let count = header.imm as usize;
    Ran {
        answer,
        cells,
        count,
    }
}

// What it comes to from the image on.
fn from_image(text: &[u8], choices: &[u8], inputs: &[u32], budget: u32) -> Result<Ran, Refusal>
    ensures { prints result ≡ from_image budget choices.now inputs.now text.now }
{
    let mut table = [0u64; Image::LINES];
    match reader::read(text, &mut table) {
        Ok(lines) => Ok(from_table(&table[..lines], choices, inputs, budget)),
        Err(refusal) => Err(Refusal::Image {
            number: refusal.number(),
            line: refusal.line() as u32,
        }),
    }
}

// What it comes to from the line of inputs on.
fn from_inputs(text: &[u8], choices: &[u8], budget: u32) -> Result<Ran, Refusal>
    ensures { prints result ≡ from_inputs budget choices.now text.now }
{
    let mut inputs = [0u32; Image::INPUTS];
    let (n, rest) = numbers_of(text, &mut inputs).ok_or(Refusal::Inputs)?;
    from_image(rest, choices, &inputs[..n], budget)
}

// What it comes to from the line of choices on.
fn from_choices(text: &[u8], budget: u32) -> Result<Ran, Refusal>
    ensures { prints result ≡ from_choices budget text.now }
{
    let mut choices = [0u8; Image::CHOICES];
    let (n, rest) = numbers_of(text, &mut choices).ok_or(Refusal::Choices)?;
    from_inputs(rest, &choices[..n], budget)
}

// What a job comes to, from the line of its budget on.
fn from_budget(text: &[u8]) -> Result<Ran, Refusal>
    ensures { prints result ≡ printed text.now }
{
    let (budget, rest) = budget_of(text).ok_or(Refusal::Budget)?;
    from_choices(rest, budget)
}

// Writes the answer to a job to the start of out and answers how many bytes it has; writes nothing where out has not room for the longest
// answer. What stands past the longest job is not looked at, so the time does not grow with it.
#[tactic(auto, using(crate::proofs::Stages::no_room))]
pub fn answer(job: &[u8], out: &mut [u8]) -> Option<usize>
    ensures { wrote result out.new ≡ answered job.now out.old }
{
    if out.len() < LONGEST_ANSWER {
        return None;
    }
    let end = job.len().min(LONGEST_JOB);
    match from_budget(&job[..end]) {
        Ok(ran) => printing::show(ran.answer, &ran.cells[..ran.count], out),
        Err(refusal) => printing::show(refusal.answer(), &[], out),
    }
}
