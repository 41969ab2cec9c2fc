// What each op uses.
#![tactic(auto)]

ghost use Rattle.std.specs.Prelude.{◌≡◌, Some};
ghost use Rattle.frame.specs.Ops.{uses_of};

use frame::Bodies::{All, Main, MainAndThreads, Threads};
use frame::Use::{Cell, Event, Length, Number, Region, Target, Thread, Unused, Update};
use frame::{Bodies, Use, Uses};

fn used(d: Use, a: Use, b: Use, imm: Use, bodies: Bodies) -> Option<Uses>
    ensures { result ≡ Some (record { d = d; a = a; b = b; imm = imm; bodies = bodies }) }
{
    Some(Uses {
        d,
        a,
        b,
        imm,
        bodies,
    })
}

// What an op uses: the one decision over the op numbers. They stay the file's bytes: an enum of ops would need a second decision over the same numbers.
#[tactic(auto, unfolding(frame::specs::Ops::uses_of))]
pub fn uses_of(op: u8) -> Option<Uses>
    ensures { result ≡ uses_of op }
{
    match op {
        0x01 => used(Cell, Unused, Unused, Number, All),
        0x02 | 0x22 | 0x2e => used(Cell, Cell, Unused, Unused, All),
        0x03 => used(Cell, Unused, Unused, Unused, All),
        0x10..=0x14 | 0x18..=0x1c | 0x20..=0x21 | 0x28..=0x2d => {
            used(Cell, Cell, Cell, Unused, All)
        }
        0x30..=0x31 => used(Cell, Cell, Length, Region, All),
        0x40 => used(Unused, Unused, Unused, Target, All),
        0x41 => used(Unused, Cell, Unused, Target, All),
        0x50..=0x51 => used(Unused, Cell, Unused, Unused, All),
        0x60 => used(Event, Unused, Unused, Unused, Threads),
        0x61 => used(Unused, Cell, Unused, Unused, Threads),
        0x62 => used(Event, Unused, Unused, Unused, MainAndThreads),
        0x63 => used(Event, Cell, Unused, Unused, All),
        0x64 => used(Update, Unused, Unused, Unused, MainAndThreads),
        0x65..=0x66 => used(Thread, Unused, Unused, Unused, MainAndThreads),
        0x67 => used(Unused, Unused, Unused, Number, Main),
        0x68 => used(Unused, Unused, Unused, Unused, Main),
        _ => None,
    }
}
