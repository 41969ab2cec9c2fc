// The hot path: the plain instructions of one body, on a lent table and lent cells.
#![tactic(auto)]

ghost use Rattle.std.specs.Prelude.{◌≡◌, ◌+◌, ◌-◌, ◌≤◌, ◌<◌, length, get_or, set};
ghost use Rattle.plain.specs.Plain.{Comes, load_of, store_of, hold_of, plain, run_plain};

use effect::Eff;
use ending::Ending;
use frame::Frame;
use image::Image;

// A cell's value takes a place's type; every one fits. By `as`, since the library has no `From` for it.
fn wide(x: u32) -> usize
    ensures { (result ≡ x) × (result < 4294967296) }
{
    x as usize
}

// The place v of the region is tested against its length, and the cell against the lent ones, which may be fewer where nobody judged.
#[tactic(auto, using(crate::proofs::Arms::load_out, crate::proofs::Arms::load_in))]
fn load_of(i: Frame, v: u32, cells: &[u32]) -> Eff
    ensures { result ≡ load_of i v cells.now }
{
    let x = wide(v);
    if i.b as usize <= x {
        return Eff::Stop(Ending::OutOfRegion);
    }
    Eff::Put(i.d as usize, slots::get_or(cells, i.imm as usize + x, 0))
}

#[tactic(auto, using(crate::proofs::Arms::store_out, crate::proofs::Arms::store_in))]
fn store_of(i: Frame, v: u32, cells: &[u32]) -> Eff
    ensures { result ≡ store_of i v cells.now }
{
    let x = wide(v);
    if i.b as usize <= x {
        return Eff::Stop(Ending::OutOfRegion);
    }
    Eff::Put(i.imm as usize + x, slots::get_or(cells, i.d as usize, 0))
}

// Ops 50 and 51: on where the cell is not 0, else the run stops.
#[tactic(auto, using(crate::proofs::Arms::assert_fails, crate::proofs::Arms::assume_fails, crate::proofs::Arms::hold_passes))]
fn holds(x: u32, op: u8) -> Eff
    requires { (0x50 ≤ op) × (op ≤ 0x51) }
    ensures { result ≡ hold_of x (12 + (op - 0x50)) }
{
    if x == 0 {
        return Eff::Stop(if op == 0x50 {
            Ending::AssertFailed
        } else {
            Ending::AssumeFailed
        });
    }
    Eff::Next
}

// The one decision over the op numbers. It is flat, and knows no place, because this is what each instruction costs.
fn effect_of(i: Frame, cells: &[u32]) -> Eff
    requires { 256 ≤ length cells.now }
    ensures { Comes result i cells.now }
{
    let op = i.op;
    let d = i.d as usize;
    let x = cells[i.a as usize];
    let y = cells[i.b as usize];
    match op {
        0x01 => Eff::Put(d, i.imm),
        0x02 => Eff::Put(d, x),
        0x10 => Eff::Put(d, unsigned::add_u(x, y)),
        0x11 => Eff::Put(d, unsigned::sub_u(x, y)),
        0x12 => Eff::Put(d, unsigned::mul_u(x, y)),
        0x13 => effect::put(d, unsigned::quot_u(x, y)),
        0x14 => effect::put(d, unsigned::rem_u(x, y)),
        0x18 => effect::sum(d, x, y),
        0x19 => effect::difference(d, x, y),
        0x1a => effect::product(d, x, y),
        0x1b => effect::put(d, signed::quot_s(x, y)),
        0x1c => effect::put(d, signed::rem_s(x, y)),
        0x20 => Eff::Put(d, bits::and_b(x, y)),
        0x21 => Eff::Put(d, bits::or_b(x, y)),
        0x22 => Eff::Put(d, bits::not_b(x)),
        0x28 => Eff::Put(d, bits::equal(x, y)),
        0x29 => Eff::Put(d, bits::differ(x, y)),
        0x2a => Eff::Put(d, unsigned::lt_u(x, y)),
        0x2b => Eff::Put(d, unsigned::le_u(x, y)),
        0x2c => Eff::Put(d, signed::lt_s(x, y)),
        0x2d => Eff::Put(d, signed::le_s(x, y)),
        0x2e => Eff::Put(d, bits::is_zero(x)),
        0x30 => load_of(i, x, cells),
        0x31 => store_of(i, x, cells),
        0x40 => Eff::Go(i.imm as usize),
        0x41 => effect::jump(x, i.imm as usize),
        0x50..=0x51 => holds(x, op),
        _ => Eff::Leave,
    }
}

// How a run of plain instructions ends: at the body's end, at an instruction that is not plain, or where one stopped the run.
#[derive(Clone, Copy)]
pub enum End {
    Ended,
    Left,
    Stopped(Ending),
}

// How it ends, where, and what is left of the budget.
#[derive(Clone, Copy)]
pub struct Ran {
    pub end: End,
    pub place: usize,
    pub left: u32,
}

// The loop itself, on the frames of a body.
fn run_body(body: &[u64], from: usize, budget: u32, cells: &mut [u32]) -> Ran
    requires { (length body.now ≤ 1024) × (256 ≤ length cells.old) }
    ensures { record { ran = result; cells = cells.new } ≡ plain budget body.now 0 (length body.now) from cells.old }
{
    let mut place = from;
    let mut left = budget;
    // The place is where the instructions lead, and no index that goes over the body.
    while place < body.len() {
        if left == 0 {
            return Ran {
                end: End::Stopped(Ending::NoBudgetLeft),
                place,
                left,
            };
        }
        let i = Frame::from(body[place]);
        let e = effect_of(i, &*cells);
        match e {
            Eff::Put(at, v) => {
                slots::put(cells, at, v);
                place += 1;
            }
            Eff::Next => {
                place += 1;
            }
            Eff::Go(to) => {
                place = to;
            }
            Eff::Stop(n) => {
                return Ran {
                    end: End::Stopped(n),
                    place,
                    left,
                };
            }
            Eff::Leave => {
                return Ran {
                    end: End::Left,
                    place,
                    left,
                };
            }
        }
        left -= 1;
    }
    Ran {
        end: End::Ended,
        place,
        left,
    }
}

// Runs the plain instructions of the body of len frames that begins at line base, from a place on.
#[tactic(auto, using(crate::proofs::Turns::able_laws))]
pub fn run_plain(
    table: &[u64],
    base: usize,
    len: usize,
    from: usize,
    budget: u32,
    cells: &mut [u32],
) -> Ran
    ensures { record { ran = result; cells = cells.new } ≡ run_plain budget table.now base len from cells.old }
{
    // Tried with `table.get(base..)?.get(..len)` in place of the three tests of the table: the loop then lay so that a plain instruction took
    // 1.16 of the C++ interpreter's time, where 1.15 is the bar.
    if Image::INSTRUCTIONS < len
        || table.len() < len
        || table.len() - len < base
        || cells.len() < Image::CELLS as usize
    {
        return Ran {
            end: End::Stopped(Ending::UnknownOp),
            place: from,
            left: budget,
        };
    }
    run_body(&table[base..base + len], from, budget, cells)
}
