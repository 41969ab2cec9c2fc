// What a run answers, made of its last state.
#![tactic(auto)]

ghost use Rattle.std.specs.Prelude.{◌≡◌};
ghost use Rattle.turns.specs.Code.{answer_as, answered};
ghost use Rattle.answer.specs.Answer.{said};

use turns::{Control, Now};

// What a run answers: its number, the body and place of the stopping instruction, the time, the instructions completed, the choices
// accepted, the inputs taken, and the threads not ended, thread 0 as bit 0. C callers get it as it is.
#[repr(C)]
#[derive(Clone, Copy)]
pub struct Answer {
    pub number: u32,
    pub body: u32,
    pub place: u32,
    pub time: u32,
    pub instructions: u32,
    pub choices: u32,
    pub inputs: u32,
    pub threads: u32,
}

// The answer of a run that is over with number k, at place p of body b. Field by field, since the state is of another type.
fn answer_as(n: Now, budget: u32, k: u8, b: usize, p: usize) -> Answer
    ensures { said result ≡ answer_as budget n k b p }
{
    Answer {
        number: u32::from(k),
        body: (b % 0x1_0000_0000) as u32,
        place: (p % 0x1_0000_0000) as u32,
        time: n.time,
        instructions: budget.saturating_sub(n.left),
        choices: (n.chosen % 0x1_0000_0000) as u32,
        inputs: (n.taken % 0x1_0000_0000) as u32,
        threads: n.marks.not_ended(),
    }
}

// The answer of a run that stands where it is over.
#[tactic(auto, unfolding(turns::specs::Code::answered))]
pub fn answer_of(n: Now, budget: u32) -> Answer
    ensures { said result ≡ answered budget n }
{
    match n.control {
        Control::Over(k, b, p) => answer_as(n, budget, k, b, p),
        _ => answer_as(n, budget, 0, 0, 0),
    }
}
