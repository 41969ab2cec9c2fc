// The machine's state as numbers: the types of the run's code, and the machine at another place. specs/ says what a turn makes of the
// state, and proofs/ that it is some steps of the machine.
#![tactic(auto)]

ghost use Rattle.std.specs.Prelude.{◌≡◌};
ghost use Rattle.turns.specs.Code.{threads_of, goes_to, marks_to};

use marks::Marks;

// Where the machine stands: body b runs, a phase, the turn to evaluation or time, or the run is over: why, in which body and at which place.
// Why is said by its number and not as an `Ending`, since what takes a `Now` promises its answer for each u8.
#[derive(Clone, Copy)]
pub enum Control {
    Runs(usize),
    UpdatePhase,
    DeltaPhase,
    Turn,
    Evaluation,
    TimePhase,
    Over(u8, usize, usize),
}

// How far the phase is: main has not begun it, it runs, or it is over, as quiet or by its limit.
#[derive(Clone, Copy)]
pub enum Stage {
    Before,
    During,
    Quiet,
    Limited,
}

// All of the machine and the kernel that is a single number; left is what is left of the budget.
#[derive(Clone, Copy)]
pub struct Now {
    pub control: Control,
    pub time: u32,
    pub limit: Option<u32>,
    pub stage: Stage,
    pub left: u32,
    pub chosen: usize,
    pub taken: usize,
    pub marks: Marks,
}

// What a run is given: the table, the order of threads and the inputs; and the lines of the bodies' first instructions.
#[derive(Clone, Copy)]
pub struct Job<'a> {
    pub table: &'a [u64],
    pub choices: &'a [u8],
    pub inputs: &'a [u32],
    pub firsts: &'a [usize],
}

// The rest of the state: what each event pends for and each thread waits for, where it is a time, the threads that wait for each
// event, and each body's place. Two lists by event and no list of pairs, so that `dues::take_due` serves events and threads alike.
#[derive(Drop)]
pub struct State<'a> {
    pub pends: &'a mut [u64],
    pub waits: &'a mut [u64],
    pub waiters: &'a mut [u32],
    pub places: &'a mut [usize],
}

// What an instruction that is not plain came to, where it does not stop the run: it goes on, makes its thread wait, took an input, or
// begins the phase with a limit.
#[derive(Clone, Copy)]
pub enum Obeyed {
    Goes,
    Waits,
    Took,
    Begins(Option<u32>),
}

// And the marks after it.
#[derive(Clone, Copy)]
pub struct Done {
    pub came: Obeyed,
    pub marks: Marks,
}

impl Now {
    // The machine at another place.
    pub fn to(self, c: Control) -> Now
        ensures { result ≡ goes_to c self }
    {
        Now { control: c, ..self }
    }

    // And with other marks.
    pub fn to_marks(self, c: Control, marks: Marks) -> Now
        ensures { result ≡ marks_to c marks self }
    {
        Now {
            control: c,
            marks: marks,
            ..self
        }
    }
}

impl State<'_> {
    // The threads.
    pub fn threads(&self) -> usize
        ensures { result ≡ threads_of self.now }
    {
        self.waits.len()
    }
}
