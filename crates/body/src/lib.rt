// A body's turn: its plain instructions, and what ended them.
#![tactic(auto)]

ghost use Rattle.std.specs.Prelude.{◌≡◌, ◌+◌, ◌-◌, ◌<◌, Ok, length, get_or, set};
ghost use Rattle.frame.specs.Ops.{meaning_of};
ghost use Rattle.plain.specs.Plain.{run_plain};
ghost use Rattle.plain.specs.Laws.{Inside};
ghost use Rattle.turns.specs.Code.{lists_of, code_of, kept_of, SameSlices, obeyed, stays_at, next_input, completed_to, completed, ran_to, body_run_of};

use frame::Frame;
use marks::Marks;
use plain::{End, Ran};
use turns::{Control, Done, Job, Now, Obeyed, Stage, State};

// Where body b stands after what it asked of the kernel, where it did not wait: a thread that is suspended gives control back.
#[tactic(auto, unfolding(turns::specs::Code::stays_at))]
fn stay(b: usize, threads: usize, marks: Marks) -> Control
    ensures { result ≡ stays_at threads b marks }
{
    if 1 <= b && b <= threads && !marks.is_runnable(b - 1) {
        return Control::Evaluation;
    }
    Control::Runs(b)
}

// One more of the inputs.
#[tactic(auto, unfolding(turns::specs::Code::next_input))]
fn next_input(count: usize, taken: usize) -> usize
    ensures { result ≡ next_input count taken }
{
    if taken < count {
        return taken + 1;
    }
    taken
}

// An instruction of body b is completed: where the machine stands after it, with one less left of the budget. What it came to is asked
// first, where the compiler still knows it of each instruction.
fn complete(done: Done, n: Now, count: usize, b: usize, threads: usize) -> Now
    ensures { result ≡ completed_to threads count b 0 (Ok done.came) done.marks n }
{
    let left = n.left.saturating_sub(1);
    match done.came {
        Obeyed::Goes => Now {
            control: stay(b, threads, done.marks),
            left,
            marks: done.marks,
            ..n
        },
        Obeyed::Waits => Now {
            control: Control::Evaluation,
            left,
            marks: done.marks,
            ..n
        },
        Obeyed::Took => Now {
            control: Control::Runs(b),
            left,
            taken: next_input(count, n.taken),
            ..n
        },
        Obeyed::Begins(limit) => Now {
            control: Control::UpdatePhase,
            limit,
            stage: Stage::During,
            left,
            ..n
        },
    }
}

// The instruction f at place p of body b, which is not plain: it is completed, or stops the run.
fn obey_at(
    f: Frame,
    inputs: &[u32],
    threads: usize,
    b: usize,
    p: usize,
    n: Now,
    s: &mut State<'_>,
    cells: &mut [u32],
) -> Now
    requires { p < 1024 }
    ensures value { code_of result s.new cells.new ≡ completed threads (length inputs.now) b p (obeyed threads b f n inputs.now (kept_of n s.old) cells.old (meaning_of f.op)) n s.old.places.now }
    ensures same_slices { SameSlices s.old s.new }
{
    match obey::obey(f, b, n, threads, inputs, s, cells) {
        Ok(done) => {
            let n = complete(done, n, inputs.len(), b, threads);
            slots::put(s.places, b, p + 1);
            n
        }
        Err(k) => n.to(Control::Over(k.number(), b, p)),
    }
}

// What ended the plain instructions of body b, whose first instruction stands at line base.
#[tactic(auto, using(crate::proofs::Arms::fits_left, crate::proofs::Arms::line_left))]
fn after_plain(
    ran: Ran,
    job: &Job<'_>,
    base: usize,
    threads: usize,
    b: usize,
    n: Now,
    s: &mut State<'_>,
    cells: &mut [u32],
) -> Now
    requires { ran.end ≡ End.Left → Inside job.now.table.now base 0 ran.place }
    ensures value { code_of result s.new cells.new ≡ ran_to job.now.table.now job.now.inputs.now threads base b ran.end ran.place n (lists_of s.old) s.old.places.now cells.old }
    ensures same_slices { SameSlices s.old s.new }
{
    let p = ran.place;
    match ran.end {
        End::Ended => moves::end_body(n, b, threads),
        End::Stopped(k) => n.to(Control::Over(k.number(), b, p)),
        End::Left => obey_at(
            Frame::from(job.table[base + p]),
            job.inputs,
            threads,
            b,
            p,
            n,
            s,
            cells,
        ),
    }
}

// The plain instructions of body b, whose first instruction stands at line base, from the body's place on.
fn run_from_place(
    job: &Job<'_>,
    base: usize,
    b: usize,
    left: u32,
    places: &mut [usize],
    cells: &mut [u32],
) -> Ran
    ensures value { record { ran = result; cells = cells.new } ≡ run_plain left job.now.table.now base (get_or job.now.firsts.now (b + 1) 0 - base) (get_or places.old b 0) cells.old }
    ensures places_after { places.new ≡ set places.old b result.place }
{
    let len = places::distance(base, places::place_after(job.firsts, b));
    let place = slots::get_or(places, b, 0);
    let ran = plain::run_plain(job.table, base, len, place, left, cells);
    slots::put(places, b, ran.place);
    ran
}

// Body b runs: its plain instructions, and what ended them. The count of threads is given beside the state, since `body_run` is over any.
#[tactic(auto, unfolding(turns::specs::Code::body_run))]
pub fn run(
    job: &Job<'_>,
    threads: usize,
    b: usize,
    n: Now,
    s: &mut State<'_>,
    cells: &mut [u32],
) -> Now
    ensures value { code_of result s.new cells.new ≡ body_run_of job.now threads b (code_of n s.old cells.old) }
    ensures same_slices { SameSlices s.old s.new }
{
    let base = slots::get_or(job.firsts, b, 0);
    let ran = run_from_place(job, base, b, n.left, s.places, cells);
    let n = Now {
        left: ran.left,
        ..n
    };
    after_plain(ran, job, base, threads, b, n, s, cells)
}
