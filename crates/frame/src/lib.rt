// A frame of a design image: its fields, and the types of what its op uses and of what is wrong with it as an instruction, which `ops` and
// `fault` find.
#![tactic(auto)]

ghost use Rattle.std.specs.Prelude.{◌≡◌};

// A frame's fields.
#[derive(Clone, Copy, Debug, PartialEq, Eq)]
pub struct Frame {
    pub op: u8,
    pub d: u8,
    pub a: u8,
    pub b: u8,
    pub imm: u32,
}

// The counts that a header gives.
#[derive(Clone, Copy, Debug, PartialEq, Eq)]
pub struct Counts {
    pub threads: u8,
    pub events: u8,
    pub updates: u8,
    pub cells: u32,
}

// The kinds of body.
#[derive(Clone, Copy, Debug, PartialEq, Eq)]
pub enum Kind {
    Main,
    Thread,
    Update,
}

// What a field is used for.
#[derive(Clone, Copy, Debug, PartialEq, Eq)]
pub enum Use {
    Unused,
    Cell,
    Event,
    Thread,
    Update,
    Number,
    Length,
    Region,
    Target,
}

// The bodies that may hold an op.
#[derive(Clone, Copy, Debug, PartialEq, Eq)]
pub enum Bodies {
    All,
    MainAndThreads,
    Threads,
    Main,
}

// What an op uses each field for, and where it may stand.
#[derive(Clone, Copy, Debug, PartialEq, Eq)]
pub struct Uses {
    pub d: Use,
    pub a: Use,
    pub b: Use,
    pub imm: Use,
    pub bodies: Bodies,
}

// What is wrong with an instruction.
#[derive(Clone, Copy, Debug, PartialEq, Eq)]
pub enum Fault {
    Op,
    Field,
}

impl From<u64> for Frame {
    ghost use Rattle.frame.specs.Fields.{fields};

    ghost from_gives = { λ f r. r ≡ fields f };

    fn from(f: u64) -> Self {
        Frame {
            op: (f / 0x100_0000_0000_0000) as u8,
            d: (f / 0x1_0000_0000_0000 % 256) as u8,
            a: (f / 0x100_0000_0000 % 256) as u8,
            b: (f / 0x1_0000_0000 % 256) as u8,
            imm: (f % 0x1_0000_0000) as u32,
        }
    }
}
