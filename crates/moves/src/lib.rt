// What the machine does between instructions but for evaluation: the delta phase, time, a body's end.
#![tactic(auto)]

ghost use Rattle.std.specs.Prelude.{◌≡◌, []};
ghost use Rattle.dues.specs.Codes.{due_time};
ghost use Rattle.shows.specs.Shows.{lists};
ghost use Rattle.turns.specs.Code.{lists_of, SameSlices, delta_to, delta_in, least_of, is_beyond, timed_by, served_by, phase_ending, ends_to};

use ending::Ending;
use turns::{Control, Now, Stage, State};

// The delta phase: all delta work is done together.
pub fn delta_phase(n: Now, waiters: &mut [u32]) -> Now
    ensures value { result ≡ delta_to n (lists [] [] waiters.old) }
    ensures waiters_after { lists [] [] waiters.new ≡ delta_in n (lists [] [] waiters.old) }
{
    let served = phases::serve_delta(n.marks, waiters);
    n.to_marks(Control::Turn, served)
}

// The least due time.
fn least_due(s: &State<'_>) -> Option<u32>
    ensures { due_time result ≡ least_of (lists_of s.now) }
{
    dues::least_due(s.pends, s.waits)
}

// Time: the phase is quiet where nothing is due, and over where the least due time is above the limit; then main goes on.
pub fn time_phase(n: Now, s: &mut State<'_>) -> Now
    ensures value { result ≡ timed_by (least_of (lists_of s.old)) n (lists_of s.old) }
    ensures lists_after { lists_of s.new ≡ served_by (least_of (lists_of s.old)) n (lists_of s.old) }
    ensures places_stay { s.new.places.now ≡ s.old.places.now }
    ensures same_slices { SameSlices s.old s.new }
{
    let Some(t) = least_due(s) else {
        return Now {
            control: Control::Runs(0),
            stage: Stage::Quiet,
            ..n
        };
    };
    if n.limit.is_some_and(|limit| limit < t) {
        return Now {
            control: Control::Runs(0),
            stage: Stage::Limited,
            ..n
        };
    }
    let marks = phases::serve_time(n.marks, u64::from(t) + 1, s.pends, s.waits, s.waiters);
    Now {
        control: Control::Turn,
        time: t,
        marks,
        ..n
    }
}

// Why a run is over when main ends, by the stage.
fn ending_of(stage: Stage) -> Ending
    ensures { result ≡ phase_ending stage }
{
    match stage {
        Stage::Before | Stage::During => Ending::NoStart,
        Stage::Quiet => Ending::Quiet,
        Stage::Limited => Ending::Limit,
    }
}

// The end of body b.
#[tactic(auto, unfolding(turns::specs::Code::ends_to))]
pub fn end_body(n: Now, b: usize, threads: usize) -> Now
    ensures { result ≡ ends_to threads b n }
{
    if b == 0 {
        return n.to(Control::Over(ending_of(n.stage).number(), 0xff, 0));
    }
    if b <= threads {
        return n.to_marks(Control::Evaluation, n.marks.end(b - 1));
    }
    n.to_marks(Control::UpdatePhase, n.marks.finish(b - 1 - threads))
}
