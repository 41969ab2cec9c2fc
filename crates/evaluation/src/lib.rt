// Evaluation: which thread is dispatched, and where the machine goes where none is runnable.
#![tactic(auto)]

ghost use Rattle.std.specs.Prelude.{◌≡◌};
ghost use Rattle.kernel.specs.Search.{nth};
ghost use Rattle.marks.specs.Marks.{first_asked};
ghost use Rattle.turns.specs.Code.{choice_by, idle_or, evaluated, when_idle, settled};

use ending::Ending;
use marks::Marks;
use turns::{Control, Now};

// The thread that the next choice names while one is runnable, or why the run is over.
#[tactic(auto, using(crate::proofs::Arms::choice_none, crate::proofs::Arms::choice_taken, crate::proofs::Arms::choice_refused))]
fn next_choice(choices: &[u8], at: usize, marks: Marks) -> Result<u8, Ending>
    ensures { result ≡ choice_by (nth choices.now at) marks }
{
    if choices.len() <= at {
        return Err(Ending::NoChoiceLeft);
    }
    let c = choices[at];
    if marks.is_runnable(usize::from(c)) {
        return Ok(c);
    }
    Err(Ending::NotRunnable)
}

// Where no thread is runnable the machine goes to `idle`, else the run is over for k.
fn idle_or(n: Now, k: Ending, idle: Control) -> Now
    ensures { result ≡ idle_or k idle n }
{
    if n.marks.any_runnable() {
        return n.to(Control::Over(k.number(), 0xff, 0));
    }
    n.to(idle)
}

// Evaluation: the next choice names the thread that is dispatched. Where it names a runnable one, no other need be looked at. Where
// none is runnable the machine goes to `idle`: the updates after evaluation, time after the delta phase.
fn evaluate(choices: &[u8], n: Now, idle: Control) -> Now
    ensures { result ≡ evaluated choices.now idle n }
{
    match next_choice(choices, n.chosen, n.marks) {
        Ok(c) => Now {
            control: Control::Runs(usize::from(c) + 1),
            chosen: n.chosen + 1,
            ..n
        },
        Err(k) => idle_or(n, k, idle),
    }
}

// Where evaluation leads once no thread is runnable: with no update requested, the delta phase at once.
fn after_evaluation(marks: Marks) -> Control
    ensures { result ≡ when_idle (first_asked marks) }
{
    if marks.first_requested().is_some() {
        return Control::UpdatePhase;
    }
    Control::DeltaPhase
}

// Evaluation, where the machine stands there or at the turn to it. After this it stands at neither.
#[tactic(auto, unfolding(turns::specs::Code::settled))]
pub fn settle(choices: &[u8], n: Now) -> Now
    ensures { result ≡ settled choices.now n }
{
    match n.control {
        Control::Turn => evaluate(choices, n, Control::TimePhase),
        Control::Evaluation => evaluate(choices, n, after_evaluation(n.marks)),
        // An arm for each place: with one for all, what follows tests the place again, and a dispatch takes 6% more instructions.
        Control::Runs(_) => n,
        Control::UpdatePhase => n,
        Control::DeltaPhase => n,
        Control::TimePhase => n,
        Control::Over(_, _, _) => n,
    }
}
