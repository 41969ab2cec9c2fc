// What is wrong with a frame as an instruction, by what its op uses.
#![tactic(auto)]

ghost use Rattle.std.specs.Prelude.{◌≡◌};
ghost use Rattle.frame.specs.Ops.{held_by};
ghost use Rattle.frame.specs.Fault.{fits, instruction_fault, fault_number};

use frame::{Bodies, Counts, Fault, Frame, Kind, Use};

// May a body of this kind hold an op of these bodies?
fn held_by(kind: Kind, bodies: Bodies) -> bool
    ensures { result ≡ held_by kind bodies }
{
    match bodies {
        Bodies::All => true,
        Bodies::MainAndThreads => kind != Kind::Update,
        Bodies::Threads => kind == Kind::Thread,
        Bodies::Main => kind == Kind::Main,
    }
}

// Is x in range for its use, in a body of n instructions? b is the frame's field b.
#[tactic(auto, unfolding(frame::specs::Fault::fits))]
fn in_range(c: Counts, n: u32, b: u8, u: Use, x: u32) -> bool
    ensures { result ≡ fits c n b u x }
{
    match u {
        Use::Unused => x == 0,
        Use::Cell => x < c.cells,
        Use::Event => x < c.events as u32,
        Use::Thread => x < c.threads as u32,
        Use::Update => x < c.updates as u32,
        Use::Number => true,
        Use::Length => 1 <= x,
        Use::Region => x as u64 + b as u64 <= c.cells as u64,
        Use::Target => x <= n,
    }
}

// What is wrong with the instruction f in a body of this kind with n instructions, if anything.
#[tactic(auto, unfolding(frame::specs::Fault::instruction_fault))]
pub fn fault_of(c: Counts, kind: Kind, n: u32, f: Frame) -> Result<(), Fault>
    ensures { fault_number result ≡ instruction_fault c kind n f }
{
    let uses = ops::uses_of(f.op).ok_or(Fault::Op)?;
    if !held_by(kind, uses.bodies) {
        return Err(Fault::Op);
    }
    if !in_range(c, n, f.b, uses.d, f.d as u32)
        || !in_range(c, n, f.b, uses.a, f.a as u32)
        || !in_range(c, n, f.b, uses.b, f.b as u32)
        || !in_range(c, n, f.b, uses.imm, f.imm)
    {
        return Err(Fault::Field);
    }
    Ok(())
}
