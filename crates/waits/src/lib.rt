// What a wait, a notification and a trigger make of the marks, the due times and the threads that wait for each event.
#![tactic(auto)]

ghost use Rattle.std.specs.Prelude.{◌≡◌, get_or, set};
ghost use Rattle.sets.specs.Sets.{has, with, minus};
ghost use Rattle.marks.specs.Marks.{waits_on, waits_till, asked_for};
ghost use Rattle.dues.specs.Codes.{for_nothing};
ghost use Rattle.dues.specs.Dues.{waits_at, changed, asked_code};
ghost use Rattle.waits.specs.Waits.{triggered};

use marks::Marks;

// Thread i waits for event e.
pub fn wait_event(m: Marks, waiters: &mut [u32], i: usize, e: usize) -> Marks
    ensures value { result ≡ waits_on i m }
    ensures waiters_after { waiters.new ≡ set waiters.old e (with (get_or waiters.old e 0) i) }
{
    let w = slots::get_or(waiters, e, 0);
    slots::put(waiters, e, sets::with(w, i));
    m.wait(i)
}

// Thread i waits for the moment q.
#[tactic(auto, unfolding(marks::specs::Marks::waits_till, dues::specs::Dues::waits_at))]
pub fn wait_time(m: Marks, waits: &mut [u64], i: usize, q: u64) -> Marks
    ensures value { result ≡ waits_till q i m }
    ensures waits_after { waits.new ≡ waits_at q i waits.old }
{
    if q == 0 {
        return m.wait_delta(i);
    }
    slots::put(waits, i, q);
    m.wait(i)
}

// Event e pends for the earlier of what it pends for and the moment q.
#[tactic(auto, unfolding(marks::specs::Marks::asked_for))]
pub fn notify_after(m: Marks, pends: &mut [u64], e: usize, q: u64) -> Marks
    ensures value { result ≡ asked_for q e m }
    ensures pends_after { pends.new ≡ changed (asked_code (has m.pending e) q) e pends.old }
{
    let c = slots::get_or(pends, e, 0);
    slots::put(pends, e, dues::asked_of(sets::has(m.pending, e), q, c));
    if q == 0 {
        return m.pend(e);
    }
    m
}

// The threads that wait for event e do so no more; those of the waiting ones that then still wait for something.
pub fn free_on(waiting: u32, waiters: &mut [u32], e: usize) -> u32
    ensures value { result ≡ minus waiting (get_or waiters.old e 0) }
    ensures waiters_after { waiters.new ≡ set waiters.old e 0 }
{
    let w = slots::get_or(waiters, e, 0);
    slots::put(waiters, e, 0);
    sets::minus(waiting, w)
}

// Drops what pends for event e, and frees the threads that wait for it.
#[tactic(auto, unfolding(crate::specs::Waits::triggered))]
pub fn trigger(m: Marks, pends: &mut [u64], waiters: &mut [u32], e: usize) -> Marks
    ensures value { result ≡ triggered waiters.old e m }
    ensures pends_after { pends.new ≡ set pends.old e for_nothing }
    ensures waiters_after { waiters.new ≡ set waiters.old e 0 }
{
    slots::put(pends, e, dues::NOTHING);
    Marks {
        waiting: free_on(m.waiting, waiters, e),
        pending: sets::without(m.pending, e),
        ..m
    }
}
