// An instruction that is not plain.
#![tactic(auto)]

ghost use Rattle.std.specs.Prelude.{◌≡◌, get_or, set};
ghost use Rattle.kernel.specs.Search.{nth};
ghost use Rattle.frame.specs.Ops.{meaning_of};
ghost use Rattle.shows.specs.Shows.{kept};
ghost use Rattle.turns.specs.Code.{lists_of, kept_of, SameSlices, is_thread, did_of, wait_came, waited_on, waited_till, adds_time, full, obeyed};
ghost use Rattle.obey.specs.Tests.{input_by, may_ask, may_begin, has_room};

use ending::Ending;
use frame::Frame;
use image::Image;
use marks::Marks;
use turns::{Done, Now, Obeyed, Stage, State};

// What came of an instruction that goes on, and the marks after it.
fn goes(marks: Marks) -> Done
    ensures { result ≡ record { came = Obeyed.Goes; marks = marks } }
{
    Done {
        came: Obeyed::Goes,
        marks,
    }
}

// The next input.
#[tactic(auto, using(crate::proofs::Arms::input_none, crate::proofs::Arms::input_some))]
fn input_at(inputs: &[u32], taken: usize) -> Result<u32, Ending>
    ensures { result ≡ input_by (nth inputs.now taken) }
{
    if inputs.len() <= taken {
        return Err(Ending::NoInputLeft);
    }
    Ok(inputs[taken])
}

// Body b is a thread.
fn is_thread(b: usize, threads: usize) -> bool
    ensures { result ≡ is_thread threads b }
{
    1 <= b && b <= threads
}

// Op 60: wait for event d.
#[tactic(auto, unfolding(turns::specs::Code::waited_on))]
fn wait_event(b: usize, d: usize, threads: usize, marks: Marks, s: &mut State<'_>) -> Done
    ensures came { result.came ≡ wait_came threads b }
    ensures kept_after { kept result.marks (lists_of s.new) ≡ waited_on threads b d (kept marks (lists_of s.old)) }
    ensures places_stay { s.new.places.now ≡ s.old.places.now }
    ensures same_slices { SameSlices s.old s.new }
{
    if is_thread(b, threads) {
        return Done {
            came: Obeyed::Waits,
            marks: waits::wait_event(marks, s.waiters, b - 1, d),
        };
    }
    goes(marks)
}

// Op 61: wait for the moment q.
#[tactic(auto, unfolding(turns::specs::Code::waited_till))]
fn wait_time(b: usize, q: u64, threads: usize, marks: Marks, s: &mut State<'_>) -> Done
    ensures came { result.came ≡ wait_came threads b }
    ensures kept_after { kept result.marks (lists_of s.new) ≡ waited_till threads b q (kept marks (lists_of s.old)) }
    ensures places_stay { s.new.places.now ≡ s.old.places.now }
    ensures same_slices { SameSlices s.old s.new }
{
    if is_thread(b, threads) {
        return Done {
            came: Obeyed::Waits,
            marks: waits::wait_time(marks, s.waits, b - 1, q),
        };
    }
    goes(marks)
}

// Whether there is no room for the due time q that is to be added.
#[tactic(auto, using(crate::proofs::Arms::full_few))]
fn is_full(adds: bool, q: u64, s: &State<'_>) -> bool
    ensures { result ≡ full adds q (lists_of s.now) }
{
    if q == 0 {
        return false;
    }
    // So few events and threads leave room, and need not be counted.
    if s.pends.len() + s.waits.len() < Image::DUE_TIMES {
        return false;
    }
    if adds {
        return Image::DUE_TIMES <= dues::count_times(s.pends, s.waits);
    }
    false
}

// Whether a due time q can be asked for.
fn has_room(adds: bool, q: u64, s: &State<'_>) -> Result<(), Ending>
    ensures { result ≡ has_room adds q (lists_of s.now) }
{
    if dues::LAST_TIME < q {
        return Err(Ending::TooLate);
    }
    if is_full(adds, q, s) {
        return Err(Ending::TooManyDueTimes);
    }
    Ok(())
}

// Main after the phase may ask nothing of the kernel.
fn may_ask(b: usize, stage: Stage) -> Result<(), Ending>
    ensures { result ≡ may_ask b stage }
{
    if b == 0 && matches!(stage, Stage::Quiet | Stage::Limited) {
        return Err(Ending::OutOfPhase);
    }
    Ok(())
}

// Main begins the phase once.
fn may_begin(stage: Stage) -> Result<(), Ending>
    ensures { result ≡ may_begin stage }
{
    let Stage::Before = stage else {
        return Err(Ending::OutOfPhase);
    };
    Ok(())
}

// Whether event e pends for nothing, so that a due time for it is one more.
fn adds_time(marks: Marks, e: usize, s: &State<'_>) -> bool
    ensures { result ≡ adds_time e (kept marks (lists_of s.now)) }
{
    !sets::has(marks.pending, e) && e < s.pends.len() && dues::LAST_TIME < s.pends[e]
}

// An instruction of body b that is not plain: the one decision over the other op numbers. The count of threads is given beside the state,
// since `obeyed` is over any.
#[tactic(auto, using(crate::proofs::Decides::obey_other), unfolding(turns::specs::Code::obeyed, frame::specs::Ops::meaning_of))]
pub fn obey(
    f: Frame,
    b: usize,
    n: Now,
    threads: usize,
    inputs: &[u32],
    s: &mut State<'_>,
    cells: &mut [u32],
) -> Result<Done, Ending>
    ensures value { did_of result n s.new cells.new ≡ obeyed threads b f n inputs.now (kept_of n s.old) cells.old (meaning_of f.op) }
    ensures places_stay { s.new.places.now ≡ s.old.places.now }
    ensures same_slices { SameSlices s.old s.new }
{
    let d = f.d as usize;
    let a = f.a as usize;
    let m = n.marks;
    match f.op {
        0x03 => {
            slots::put(cells, d, input_at(inputs, n.taken)?);
            Ok(Done {
                came: Obeyed::Took,
                marks: m,
            })
        }
        0x60 => Ok(wait_event(b, d, threads, m, s)),
        0x61 => {
            let q = dues::ask(n.time, slots::get_or(cells, a, 0));
            has_room(true, q, s)?;
            Ok(wait_time(b, q, threads, m, s))
        }
        0x62 => {
            may_ask(b, n.stage)?;
            Ok(goes(waits::trigger(m, s.pends, s.waiters, d)))
        }
        0x63 => {
            may_ask(b, n.stage)?;
            let q = dues::ask(n.time, slots::get_or(cells, a, 0));
            has_room(adds_time(m, d, s), q, s)?;
            Ok(goes(waits::notify_after(m, s.pends, d, q)))
        }
        0x64 => {
            may_ask(b, n.stage)?;
            Ok(goes(m.request(d)))
        }
        0x65 => {
            may_ask(b, n.stage)?;
            Ok(goes(m.suspend(d)))
        }
        0x66 => {
            may_ask(b, n.stage)?;
            Ok(goes(m.resume(d)))
        }
        0x67 => {
            may_begin(n.stage)?;
            Ok(Done {
                came: Obeyed::Begins(Some(f.imm)),
                marks: m,
            })
        }
        0x68 => {
            may_begin(n.stage)?;
            Ok(Done {
                came: Obeyed::Begins(None),
                marks: m,
            })
        }
        _ => Err(Ending::UnknownOp),
    }
}
