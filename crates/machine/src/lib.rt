// The machine's turns.
#![tactic(auto)]

ghost use Rattle.std.specs.Prelude.{◌≡◌};
ghost use Rattle.marks.specs.Marks.{first_asked};
ghost use Rattle.turns.specs.Code.{threads_of, lists_of, code_of, SameSlices, enters_to, enters_at, is_over, turn_of, turns_of};

use turns::{Control, Job, Now, State};

// The update phase: the first requested update runs from its first instruction.
#[tactic(auto, using(crate::proofs::Arms::few_asked))]
fn update_phase(n: Now, s: &mut State<'_>) -> Now
    ensures value { result ≡ enters_to (threads_of s.old) (first_asked n.marks) n }
    ensures places_after { s.new.places.now ≡ enters_at (threads_of s.old) (first_asked n.marks) s.old.places.now }
    ensures lists_stay { lists_of s.new ≡ lists_of s.old }
    ensures same_slices { SameSlices s.old s.new }
{
    let Some(u) = n.marks.first_requested() else {
        return n.to(Control::DeltaPhase);
    };
    let b = s.threads() + 1 + u;
    slots::put(s.places, b, 0);
    n.to(Control::Runs(b))
}

// One turn of the machine: evaluation first, so that a thread that waits and the next dispatch take one turn.
#[tactic(auto, unfolding(turns::specs::Code::turn))]
fn turn_once(job: &Job<'_>, n: Now, s: &mut State<'_>, cells: &mut [u32]) -> Now
    ensures value { code_of result s.new cells.new ≡ turn_of job.now (threads_of s.old) (code_of n s.old cells.old) }
    ensures same_slices { SameSlices s.old s.new }
{
    let n = evaluation::settle(job.choices, n);
    match n.control {
        Control::Runs(b) => body::run(job, s.threads(), b, n, s, cells),
        Control::UpdatePhase => update_phase(n, s),
        Control::DeltaPhase => moves::delta_phase(n, s.waiters),
        Control::TimePhase => moves::time_phase(n, s),
        Control::Turn | Control::Evaluation | Control::Over(_, _, _) => n,
    }
}

fn is_over(c: Control) -> bool
    ensures { result ≡ is_over c }
{
    matches!(c, Control::Over(_, _, _))
}

// The machine until the run is over; `bound` turns are enough.
pub fn machine(job: &Job<'_>, start: Now, bound: u64, s: &mut State<'_>, cells: &mut [u32]) -> Now
    ensures value { code_of result s.new cells.new ≡ turns_of job.now (threads_of s.old) bound (code_of start s.old cells.old) }
    ensures same_slices { SameSlices s.old s.new }
{
    let mut n = start;
    for _ in 0..bound {
        if is_over(n.control) {
            return n;
        }
        n = turn_once(job, n, s, cells);
    }
    n
}
