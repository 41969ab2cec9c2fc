// What the delta phase and a time make of the marks, the due times and the threads that wait for each event.
#![tactic(auto)]

ghost use Rattle.std.specs.Prelude.{◌≡◌, map};
ghost use Rattle.dues.specs.Dues.{over_code, due_in};
ghost use Rattle.phases.specs.Phases.{freed_by, cleared_by, served_delta, served_time};

use marks::Marks;

// All events of a set are triggered: which of the waiting threads still wait for something.
fn free_all(waiting: u32, events: u32, waiters: &mut [u32]) -> u32
    ensures value { result ≡ freed_by events waiters.old waiting }
    ensures waiters_after { waiters.new ≡ cleared_by events waiters.old }
{
    let mut still = waiting;
    for e in sets::each(events) {
        still = waits::free_on(still, waiters, e);
    }
    still
}

// The delta phase: all delta work is done together.
pub fn serve_delta(m: Marks, waiters: &mut [u32]) -> Marks
    ensures value { result ≡ served_delta waiters.old m }
    ensures waiters_after { waiters.new ≡ cleared_by m.pending waiters.old }
{
    Marks {
        waiting: free_all(sets::minus(m.waiting, m.delta), m.pending, waiters),
        delta: 0,
        suspended: sets::minus(m.suspended, m.resuming),
        resuming: 0,
        pending: 0,
        ..m
    }
}

// A time: all that is due at the moment q is triggered or freed together.
pub fn serve_time(
    m: Marks,
    q: u64,
    pends: &mut [u64],
    waits: &mut [u64],
    waiters: &mut [u32],
) -> Marks
    ensures value { result ≡ served_time q pends.old waits.old waiters.old m }
    ensures pends_after { pends.new ≡ map (over_code q) pends.old }
    ensures waits_after { waits.new ≡ map (over_code q) waits.old }
    ensures waiters_after { waiters.new ≡ cleared_by (due_in q pends.old) waiters.old }
{
    let threads = dues::take_due(waits, q);
    let events = dues::take_due(pends, q);
    m.with_waiting(free_all(sets::minus(m.waiting, threads), events, waiters))
}
