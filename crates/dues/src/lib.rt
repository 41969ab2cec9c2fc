// Due times as numbers in lists: of events, what they pend for; of threads, what they wait for.
#![tactic(auto)]

ghost use Rattle.std.specs.Prelude.{◌≡◌, map, ◌+◌, ◌≤◌, length, ◌==◌};
ghost use Rattle.kernel.specs.Search.{lesser, least, sum};
ghost use Rattle.kernel.specs.Pending.{time_of, is_time};
ghost use Rattle.dues.specs.Codes.{pend_of, due_time};
ghost use Rattle.dues.specs.Dues.{time_at, Least, count_at, ask_code, asked_code, over_code, due_in};

// The number of the last time, and of nothing.
pub const LAST_TIME: u64 = 4294967296;

pub const NOTHING: u64 = 4294967297;

// What pends or waits with the number q is over.
#[tactic(auto, unfolding(crate::specs::Dues::over_code))]
fn over_of(q: u64, c: u64) -> u64
    ensures { result ≡ over_code q c }
{
    if c == q {
        return NOTHING;
    }
    c
}

// The number of the least time among the codes, or of nothing. The delta phase, 0, is no time.
#[tactic(auto, using(crate::proofs::Loops::least_starts, crate::proofs::Loops::least_some, crate::proofs::Loops::least_turn, crate::proofs::Loops::least_end))]
fn least_in(codes: &[u64]) -> u64
    ensures { Least codes.now result }
{
    let mut least = NOTHING;
    for &c in codes {
        least = least.min(over_of(0, c));
    }
    least
}

// The time that a number stands for.
#[tactic(auto, using(crate::proofs::Arms::delta_time, crate::proofs::Arms::never_time, crate::proofs::Arms::due_time))]
fn time_of(c: u64) -> Option<u32>
    ensures { due_time result ≡ time_of (pend_of c) }
{
    if c == 0 || LAST_TIME < c {
        return None;
    }
    Some((c - 1) as u32)
}

// The least due time of events and threads.
#[tactic(auto, using(crate::proofs::Loops::least_both))]
pub fn least_due(pends: &[u64], waits: &[u64]) -> Option<u32>
    ensures { due_time result ≡ lesser (least (time_at pends.now) (length pends.now)) (least (time_at waits.now) (length waits.now)) }
{
    time_of(least_in(waits).min(least_in(pends)))
}

// Whether it is a due time.
#[tactic(auto, using(crate::proofs::Arms::time_flag, crate::proofs::Arms::no_flag))]
fn is_time(c: u64) -> bool
    ensures { result ≡ (is_time (pend_of c) == 1) }
{
    0 < c && c <= LAST_TIME
}

// How many due times stand among the codes. By a sum: with `filter` and `count` an element takes nearly twice the instructions.
#[tactic(auto, using(crate::proofs::Loops::times_laws))]
fn times_in(codes: &[u64]) -> usize
    ensures value { result ≡ sum (count_at codes.now) (length codes.now) }
    ensures upper_bound { result ≤ length codes.now }
{
    let mut times: usize = 0;
    for &c in codes {
        times += usize::from(is_time(c));
    }
    times
}

// How many due times stand. Asked for in few designs: where its loops stand in the machine's turn, every dispatch takes more instructions.
#[inline(never)]
#[tactic(auto, using(crate::proofs::Loops::times_both))]
pub fn count_times(pends: &[u64], waits: &[u64]) -> usize
    ensures { result ≡ sum (count_at pends.now) (length pends.now) + sum (count_at waits.now) (length waits.now) }
{
    times_in(pends) + times_in(waits)
}

// The number of the moment that a delay leads to.
#[tactic(auto, unfolding(crate::specs::Dues::ask_code))]
pub fn ask(time: u32, delay: u32) -> u64
    ensures { result ≡ ask_code time delay }
{
    if delay == 0 {
        return 0;
    }
    time as u64 + delay as u64 + 1
}

// The number of what an event pends for once the moment q is asked for; d says that it pends for the delta phase.
#[tactic(auto, unfolding(crate::specs::Dues::asked_code))]
pub fn asked_of(d: bool, q: u64, c: u64) -> u64
    ensures { result ≡ asked_code d q c }
{
    if q == 0 {
        return NOTHING;
    }
    if d {
        return c;
    }
    q.min(c)
}

// All that pends or waits with the number q is over: the places where that was.
pub fn take_due(codes: &mut [u64], q: u64) -> u32
    ensures value { result ≡ due_in q codes.old }
    ensures codes_after { codes.new ≡ map (over_code q) codes.old }
{
    let mut due: u32 = 0;
    for (i, c) in codes.iter_mut().enumerate() {
        if *c == q {
            *c = NOTHING;
            due = sets::with(due, i);
        }
    }
    due
}
