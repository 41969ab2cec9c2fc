// The marks of threads, updates and events: who is runnable, which update is first, who has not ended; and what the kernel's instructions
// and the ends of bodies make of them.
#![tactic(auto)]

ghost use Rattle.std.specs.Prelude.{◌≡◌};

// Sets of threads: those that wait, for the delta phase or for anything, are suspended, are to be resumed, or have ended, as has each
// thread that there is not; of updates: the requested ones; and of events: those that pend for the delta phase.
#[derive(Clone, Copy)]
pub struct Marks {
    pub waiting: u32,
    pub delta: u32,
    pub suspended: u32,
    pub resuming: u32,
    pub ended: u32,
    pub requested: u32,
    pub pending: u32,
}

impl Marks {
    ghost use Rattle.sets.specs.Sets.{with};
    ghost use Rattle.marks.specs.Marks.{idle, may_run, any_runs, first_asked, found_of, not_ended, first_marks, with_waiting, with_pending, waits_on, waits_till, suspended, resumed, ended_by, requested_by, finished_by};

    // The first marks of so many threads.
    pub fn new(threads: usize) -> Marks
        ensures { result ≡ first_marks threads }
    {
        Marks {
            waiting: 0,
            delta: 0,
            suspended: 0,
            resuming: 0,
            ended: sets::minus(0xffff_ffff, sets::below(threads)),
            requested: 0,
            pending: 0,
        }
    }

    // The threads that can't be dispatched.
    fn idle(self) -> u32
        ensures { result ≡ idle self }
    {
        sets::join(sets::join(self.waiting, self.suspended), self.ended)
    }

    // Whether thread i is runnable.
    #[tactic(auto, unfolding(crate::specs::Marks::may_run))]
    pub fn is_runnable(self, i: usize) -> bool
        ensures { result ≡ may_run self i }
    {
        i < 32 && !sets::has(self.idle(), i)
    }

    // Whether a thread is runnable.
    #[tactic(auto, unfolding(crate::specs::Marks::any_runs))]
    pub fn any_runnable(self) -> bool
        ensures { result ≡ any_runs self }
    {
        self.idle() != 0xffff_ffff
    }

    // The first requested update.
    #[tactic(auto, unfolding(crate::specs::Marks::first_asked))]
    pub fn first_requested(self) -> Option<usize>
        ensures { found_of result ≡ first_asked self }
    {
        if self.requested == 0 {
            return None;
        }
        Some(sets::least(self.requested))
    }

    // The threads not ended, thread 0 as bit 0.
    #[tactic(auto, unfolding(crate::specs::Marks::not_ended))]
    pub fn not_ended(self) -> u32
        ensures { result ≡ not_ended self }
    {
        sets::minus(0xffff_ffff, self.ended)
    }

    // The threads of the set x wait.
    pub fn with_waiting(self, x: u32) -> Marks
        ensures { result ≡ with_waiting x self }
    {
        Marks { waiting: x, ..self }
    }

    // The events of the set x pend for the delta phase.
    pub fn with_pending(self, x: u32) -> Marks
        ensures { result ≡ with_pending x self }
    {
        Marks { pending: x, ..self }
    }

    // Thread i waits for an event or a time.
    pub fn wait(self, i: usize) -> Marks
        ensures { result ≡ waits_on i self }
    {
        self.with_waiting(sets::with(self.waiting, i))
    }

    // Thread i waits for the delta phase.
    #[tactic(auto, unfolding(crate::specs::Marks::waits_till))]
    pub fn wait_delta(self, i: usize) -> Marks
        ensures { result ≡ waits_till 0 i self }
    {
        Marks {
            delta: sets::with(self.delta, i),
            ..self.wait(i)
        }
    }

    // Event e pends for the delta phase.
    pub fn pend(self, e: usize) -> Marks
        ensures { result ≡ with_pending (with self.pending e) self }
    {
        self.with_pending(sets::with(self.pending, e))
    }

    // Suspends thread i at once and drops its pending resume; an ended thread stays as it is.
    #[tactic(auto, unfolding(crate::specs::Marks::suspended))]
    pub fn suspend(self, i: usize) -> Marks
        ensures { result ≡ suspended i self }
    {
        if sets::has(self.ended, i) {
            return self;
        }
        Marks {
            suspended: sets::with(self.suspended, i),
            resuming: sets::without(self.resuming, i),
            ..self
        }
    }

    // A suspended thread i that has not ended is to be resumed in the next delta phase.
    #[tactic(auto, unfolding(crate::specs::Marks::resumed))]
    pub fn resume(self, i: usize) -> Marks
        ensures { result ≡ resumed i self }
    {
        if !sets::has(self.suspended, i) || sets::has(self.ended, i) {
            return self;
        }
        Marks {
            resuming: sets::with(self.resuming, i),
            ..self
        }
    }

    // Thread i has ended for good.
    pub fn end(self, i: usize) -> Marks
        ensures { result ≡ ended_by i self }
    {
        Marks {
            ended: sets::with(self.ended, i),
            ..self
        }
    }

    // Update u is requested.
    pub fn request(self, u: usize) -> Marks
        ensures { result ≡ requested_by u self }
    {
        Marks {
            requested: sets::with(self.requested, u),
            ..self
        }
    }

    // Update u has reached its end.
    pub fn finish(self, u: usize) -> Marks
        ensures { result ≡ finished_by u self }
    {
        Marks {
            requested: sets::without(self.requested, u),
            ..self
        }
    }
}
