// Many instructions tried at one line of one small image: a row of answers for sixteen ops, or for one op's fields.
ghost use Rattle.std.specs.Prelude.{◌<◌};

use crate::case;
use image::Verdict;
use std::io;

// The lines of the first instructions of main, of thread 0 and of update 0, and the count of frames.
const MAIN: usize = 7;

const THREAD: usize = 10;

const UPDATE: usize = 12;

const FRAMES: usize = 13;

// The image has 3 threads, 5 events, 2 updates and 16 cells; main has 3 instructions, thread 0 has 2, update 0 has 1.
// No two counts are equal and no two of these lengths, so that none is mistaken for another.
fn tried(line: usize, instruction: u64) -> Verdict {
    let mut table = [
        0xa003_0502_0000_0010,
        0xa100_0000_0000_0003,
        0xa100_0000_0000_0002,
        0xa100_0000_0000_0000,
        0xa100_0000_0000_0000,
        0xa100_0000_0000_0001,
        0xa100_0000_0000_0000,
        0x4000_0000_0000_0000,
        0x4000_0000_0000_0000,
        0x4000_0000_0000_0000,
        0x4000_0000_0000_0000,
        0x4000_0000_0000_0000,
        0x4000_0000_0000_0000,
    ];
    slots::put(&mut table, line, instruction);
    judge::judge(&table)
}

// The instruction with each of the values in turn laid over the field that begins at this bit.
fn marks(rt: &impl Print, line: usize, instruction: u64, bit: u64, values: &[u64]) -> io::Result<()>
    requires { bit < 64 }
{
    for value in values {
        case::mark(rt, tried(line, instruction | (value << bit)), FRAMES, line)?;
    }
    Ok(())
}

fn sixteen_ops(rt: &impl Print, line: usize, first: u64) -> io::Result<()> {
    print!(rt; "  {first:02x}:")?;
    marks(
        rt,
        line,
        first << 56,
        56,
        &[0, 1, 2, 3, 4, 5, 6, 7, 8, 9, 10, 11, 12, 13, 14, 15],
    )?;
    rt.write_all(b"\n")
}

// Every op number, with all other fields zero.
fn every_op(rt: &impl Print, line: usize) -> io::Result<()> {
    for high in 0..16 {
        sixteen_ops(rt, line, high << 4)?;
    }
    Ok(())
}

// Each field of one instruction on both sides of every limit, while the other fields stay as they are.
fn row(rt: &impl Print, line: usize, instruction: u64) -> io::Result<()> {
    let op = instruction >> 56;
    print!(rt; "  {op:02x}   ")?;
    marks(rt, line, instruction, 48, &[1, 2, 3, 4, 5, 0x0f, 0x10])?;
    rt.write_all(b"   ")?;
    marks(rt, line, instruction, 40, &[1, 0x0f, 0x10])?;
    rt.write_all(b"   ")?;
    marks(
        rt,
        line,
        instruction & 0xffff_ff00_ffff_ffff,
        32,
        &[0, 1, 0x0f, 0x10, 0x11],
    )?;
    rt.write_all(b"     ")?;
    marks(
        rt,
        line,
        instruction,
        0,
        &[1, 2, 3, 4, 0x0f, 0x10, 0xffff_ffff],
    )?;
    rt.write_all(b"\n")
}

fn columns(rt: &impl Print) -> io::Result<()> {
    case::heading(
        rt,
        b"  op  d 01 02 03 04 05 0f 10  a 01 0f 10  b 00 01 0f 10 11  imm 01 02 03 04 0f 10 ffffffff",
    )
}

// The ops from first to last, with b where nothing else is tried there.
fn rows(rt: &impl Print, line: usize, first: u64, last: u64, b: u64) -> io::Result<()> {
    for op in first..=last {
        row(rt, line, (op << 56) | (b << 32))?;
    }
    Ok(())
}

pub fn every_op_by_body(rt: &impl Print) -> io::Result<()> {
    case::heading(
        rt,
        b"every op, other fields 0, in main: 00 with 13, or at 7",
    )?;
    every_op(rt, MAIN)?;
    case::heading(
        rt,
        b"every op, other fields 0, in a thread: 00 with 13, or at 10",
    )?;
    every_op(rt, THREAD)?;
    case::heading(
        rt,
        b"every op, other fields 0, in an update: 00 with 13, or at 12",
    )?;
    every_op(rt, UPDATE)
}

// As 0 is no length, ops 30 and 31 have b at 1 while the other fields are tried.
pub fn every_field(rt: &impl Print) -> io::Result<()> {
    case::heading(
        rt,
        b"3 threads, 5 events, 2 updates, 16 cells, main of 3: 00 with 13, or at 7",
    )?;
    columns(rt)?;
    fields_in_main(rt)?;
    case::heading(rt, b"the same counts, thread of 2: 00 with 13, or at 10")?;
    columns(rt)?;
    rows(rt, THREAD, 0x40, 0x41, 0)?;
    rows(rt, THREAD, 0x60, 0x61, 0)?;
    case::heading(rt, b"the same counts, update of 1: 00 with 13, or at 12")?;
    columns(rt)?;
    rows(rt, UPDATE, 0x40, 0x41, 0)?;
    rows(rt, UPDATE, 0x63, 0x63, 0)
}

fn fields_in_main(rt: &impl Print) -> io::Result<()> {
    rows(rt, MAIN, 0x01, 0x03, 0)?;
    rows(rt, MAIN, 0x10, 0x14, 0)?;
    rows(rt, MAIN, 0x18, 0x1c, 0)?;
    rows(rt, MAIN, 0x20, 0x22, 0)?;
    rows(rt, MAIN, 0x28, 0x2e, 0)?;
    rows(rt, MAIN, 0x30, 0x31, 1)?;
    rows(rt, MAIN, 0x40, 0x41, 0)?;
    rows(rt, MAIN, 0x50, 0x51, 0)?;
    rows(rt, MAIN, 0x62, 0x68, 0)
}
