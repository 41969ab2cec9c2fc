// Design images as tables of frames: their limits, and what a verdict on one says. `judge` finds a table's first fault.
#![tactic(auto)]

ghost use Rattle.std.specs.Prelude.{◌≡◌, Err};
ghost use Rattle.image.specs.Judge.{Said, said};

// The type of design images, which owns their limits.
#[derive(Clone, Copy)]
pub struct Image;

impl Image {
    pub const THREADS: u8 = 16;

    pub const EVENTS: u8 = 32;

    pub const UPDATES: u8 = 16;

    pub const CELLS: u32 = 256;

    pub const INSTRUCTIONS: usize = 1024;

    pub const LINES: usize = 1058;
    // Main, the threads and the updates.
    pub const BODIES: usize = 1 + Image::THREADS as usize + Image::UPDATES as usize;
    // What a run of the image takes.
    pub const CHOICES: usize = 4096;

    pub const INPUTS: usize = 1024;
    // Due times that can stand at once.
    pub const DUE_TIMES: usize = 48;
}

// Why the judge, the reader or the writer refuses, with the line of the first fault or the count of whole frames before it.
#[derive(Clone, Copy, Debug, PartialEq, Eq)]
pub enum Refusal {
    Line(usize),
    Header,
    Body(usize),
    Op(usize),
    Field(usize),
    Short(usize),
    Extra(usize),
    Room,
}

// What they answer: the count that was done, or why nothing was.
pub type Verdict = Result<usize, Refusal>;

impl Refusal {
    pub fn number(self) -> u8
        ensures { result ≡ (said (Err self)).number }
    {
        match self {
            Refusal::Line(_) => 1,
            Refusal::Header => 2,
            Refusal::Body(_) => 3,
            Refusal::Op(_) => 4,
            Refusal::Field(_) => 5,
            Refusal::Short(_) => 6,
            Refusal::Extra(_) => 7,
            Refusal::Room => 8,
        }
    }

    pub fn line(self) -> usize
        ensures { result ≡ (said (Err self)).line }
    {
        match self {
            Refusal::Line(i) | Refusal::Body(i) | Refusal::Op(i) | Refusal::Field(i) => i,
            Refusal::Short(n) | Refusal::Extra(n) => n,
            Refusal::Header => 0,
            Refusal::Room => 0,
        }
    }
}

// What is said of an answer: its number, and the line of the first fault or the count that was done.
pub trait Says: Copy {
    ghost says: { Self → Said };

    fn number(self) -> u8
        ensures { result ≡ (says self).number };

    fn line(self) -> usize
        ensures { result ≡ (says self).line };
}

impl Says for Verdict {
    ghost says = { said };

    fn number(self) -> u8 {
        match self {
            Ok(_) => 0,
            Err(refusal) => refusal.number(),
        }
    }

    fn line(self) -> usize {
        match self {
            Ok(count) => count,
            Err(refusal) => refusal.line(),
        }
    }
}
