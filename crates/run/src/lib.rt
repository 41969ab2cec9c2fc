// One run of a design under given choices, inputs and budget.
#![tactic(auto)]

ghost use Rattle.std.specs.Prelude.{◌≡◌, ◌+◌, ◌*◌, ◌≤◌, ◌<◌, length, replicate};
ghost use Rattle.turns.specs.Stands.{Firsts};
ghost use Rattle.turns.specs.Code.{lists_of, code_of, threads_of, turns_of, first_now, started, first_lists, zeroed, refused_at, told};
ghost use Rattle.answer.specs.Answer.{said};
ghost use Rattle.image.specs.Layout.{bodies as bodiesOf};
ghost use Rattle.image.specs.Judge.{judged};
ghost use Rattle.kernel.specs.Machine.{job_of};
ghost use Rattle.kernel.specs.Run.{runs, asked as asked_for};

use answer::Answer;
use frame::Frame;
use image::Image;
use marks::Marks;
use turns::{Control, Job, Now, Stage, State};

// The lines of the bodies' first instructions, and the line past the last.
fn put_firsts(table: &[u64], bodies: usize, firsts: &mut [usize])
    requires { ((judged table.now).number ≡ 0) × (bodies ≡ bodiesOf table.now) × (bodies < length firsts.old) }
    ensures { Firsts table.now (bodies + 1) firsts.new }
{
    let mut at = 1 + bodies;
    for (k, line) in table[1..1 + bodies].iter().enumerate() {
        firsts[k] = at;
        at += Frame::from(*line).imm as usize;
    }
    firsts[bodies] = at;
}

// The first n cells hold 0.
fn zero_cells(cells: &mut [u32], n: usize)
    requires { n ≤ length cells.old }
    ensures { cells.new ≡ zeroed n cells.old }
{
    cells[..n].fill(0);
}

fn first_now(threads: usize, budget: u32) -> Now
    ensures { result ≡ first_now threads budget }
{
    Now {
        control: Control::Runs(0),
        time: 0,
        limit: None,
        stage: Stage::Before,
        left: budget,
        chosen: 0,
        taken: 0,
        marks: Marks::new(threads),
    }
}

// The first state, after main's plain instructions up to the first other one. They would run in the first turn as well; but where
// the loop over plain instructions has one caller, the compiler copies it there, among so much else that it runs out of registers.
fn start(job: &Job<'_>, budget: u32, s: &mut State<'_>, cells: &mut [u32]) -> Now
    ensures { code_of result s.new cells.new ≡ started job.now.table.now job.now.firsts.now (threads_of s.old) budget (lists_of s.old) s.old.places.now cells.old }
{
    let base = slots::get_or(job.firsts, 0, 0);
    let len = places::distance(base, places::place_after(job.firsts, 0));
    let ran = plain::run_plain(job.table, base, len, 0, budget, cells);
    slots::put(s.places, 0, ran.place);
    first_now(s.threads(), ran.left)
}

// The run from its first state on. So many turns are enough for every run.
fn run_from(job: &Job<'_>, budget: u32, s: &mut State<'_>, cells: &mut [u32]) -> Answer
    requires { length job.now.choices.now ≤ 4096 }
    ensures { record { answer = said result; cells = cells.new } ≡ told budget (turns_of job.now (threads_of s.old) (8 * (budget + length job.now.choices.now) + 1) (started job.now.table.now job.now.firsts.now (threads_of s.old) budget (lists_of s.old) s.old.places.now cells.old)) }
{
    let bound = 8 * (u64::from(budget) + job.choices.len() as u64) + 1;
    let begun = start(job, budget, s, cells);
    let n = machine::machine(job, begun, bound, s, cells);
    answer::answer_of(n, budget)
}

// The run on a design of so many threads, events and updates, whose cells hold 0.
fn run_laid(
    job: &Job<'_>,
    threads: usize,
    events: usize,
    updates: usize,
    budget: u32,
    cells: &mut [u32],
) -> Answer
    requires { (length job.now.choices.now ≤ 4096) × (threads ≤ 16) × (events ≤ 32) × (updates ≤ 16) }
    ensures { record { answer = said result; cells = cells.new } ≡ told budget (turns_of job.now threads (8 * (budget + length job.now.choices.now) + 1) (started job.now.table.now job.now.firsts.now threads budget (first_lists threads events) (replicate (1 + threads + updates) 0) cells.old)) }
{
    let mut pends = [dues::NOTHING; Image::EVENTS as usize];
    let mut waits = [dues::NOTHING; Image::THREADS as usize];
    let mut waiters = [0u32; Image::EVENTS as usize];
    let mut places = [0usize; Image::BODIES];
    let mut s = State {
        pends: &mut pends[..events],
        waits: &mut waits[..threads],
        waiters: &mut waiters[..events],
        places: &mut places[..1 + threads + updates],
    };
    run_from(job, budget, &mut s, cells)
}

// A run of an accepted table.
fn run_accepted(
    table: &[u64],
    choices: &[u8],
    inputs: &[u32],
    budget: u32,
    cells: &mut [u32],
) -> Answer
    requires { ((judged table.now).number ≡ 0) × (length choices.now ≤ 4096) × (256 ≤ length cells.old) }
    ensures { record { answer = said result; cells = cells.new } ≡ runs (job_of table.now choices.now inputs.now budget) cells.old }
{
    let h = Frame::from(table[0]);
    let threads = h.d as usize;
    let updates = h.b as usize;
    let mut firsts = [0usize; Image::BODIES + 1];
    put_firsts(table, 1 + threads + updates, &mut firsts);
    zero_cells(cells, h.imm as usize);
    let job = Job {
        table,
        choices,
        inputs,
        firsts: &firsts,
    };
    run_laid(&job, threads, h.a as usize, updates, budget, cells)
}

// Why a run is refused: too many choices, too many inputs, or what is wrong with the image or the room for its cells.
#[derive(Clone, Copy, Debug, PartialEq, Eq)]
enum Refusal {
    Choices,
    Inputs,
    Image(image::Refusal),
}

impl Refusal {
    ghost use Rattle.run.specs.Refusals.{reason};

    // "Refusals give ff, the line, and zeros."
    fn answer(self) -> Answer
        ensures { said result ≡ refused_at (reason self).number (reason self).line }
    {
        let (number, line) = match self {
            Refusal::Choices => (9, 1),
            Refusal::Inputs => (9, 2),
            Refusal::Image(refusal) => (refusal.number(), refusal.line()),
        };
        Answer {
            number: u32::from(number),
            body: 0xff,
            place: (line % 0x1_0000_0000) as u32,
            time: 0,
            instructions: 0,
            choices: 0,
            inputs: 0,
            threads: 0,
        }
    }
}

// Runs a design on a table, with the order of threads, the inputs and the budget as given, and the design's cells in the lent ones.
#[tactic(auto, using(crate::proofs::Ends::asked_choices))]
pub fn run(table: &[u64], choices: &[u8], inputs: &[u32], budget: u32, cells: &mut [u32]) -> Answer
    ensures { record { answer = said result; cells = cells.new } ≡ asked_for (job_of table.now choices.now inputs.now budget) cells.old }
{
    if Image::CHOICES < choices.len() {
        return Refusal::Choices.answer();
    }
    if Image::INPUTS < inputs.len() {
        return Refusal::Inputs.answer();
    }
    if cells.len() < Image::CELLS as usize {
        return Refusal::Image(image::Refusal::Room).answer();
    }
    match judge::judge(table) {
        Ok(_) => run_accepted(table, choices, inputs, budget, cells),
        Err(refusal) => Refusal::Image(refusal).answer(),
    }
}
