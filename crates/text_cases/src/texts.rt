// Cases on the reader and the writer.
use crate::{bytes, text_case};
use cases::case;
use std::io;

// The table of the smallest image.
const SMALLEST: [u64; 2] = [0xa000_0000_0000_0001, 0xa100_0000_0000_0000];

pub fn lines(rt: &impl Print) -> io::Result<()> {
    case::heading(rt, b"first and last lines of text")?;
    text_case::read(rt, b"empty input", b"")?;
    text_case::changed_byte(rt, b"line, first", 0, b'A')?;
    text_case::changed_byte(rt, b"line, last", 17 * 1057 + 16, b' ')?;
    case::heading(
        rt,
        b"every byte for the a of line 1's a1: 00 with 2, or at 1",
    )?;
    bytes::every_byte(rt, 17, 1)?;
    case::heading(rt, b"every byte for line 0's 0a: 00 with 2, or at 0")?;
    bytes::every_byte(rt, 16, 0)?;
    case::heading(rt, b"two faults in text")?;
    text_case::read(rt, b"header, then a malformed line", b"a100000000000001\nz")?;
    text_case::read(rt, b"malformed, for a header", b"A100000000000001\n")?;
    text_case::read(
        rt,
        b"malformed, for a body",
        b"a000000000000001\nA000000000000000\n",
    )
}

pub fn starts(rt: &impl Print) -> io::Result<()> {
    case::heading(rt, b"the first bytes of the smallest image and a line more")?;
    bytes::every_start(rt)?;
    case::heading(rt, b"the first bytes of the largest image and a byte more")?;
    text_case::first_bytes(rt, b"17,969", 17969)?;
    text_case::first_bytes(rt, b"17,970", 17970)?;
    text_case::first_bytes(rt, b"17,985", 17985)?;
    text_case::first_bytes(rt, b"17,986", 17986)?;
    text_case::first_bytes(rt, b"17,987", 17987)
}

pub fn room(rt: &impl Print) -> io::Result<()> {
    case::heading(rt, b"room to read")?;
    room_to_read(rt)?;
    case::heading(rt, b"room to write")?;
    room_to_write(rt)?;
    refused_before_room(rt)
}

fn room_to_read(rt: &impl Print) -> io::Result<()> {
    text_case::read_to(rt, b"0 words, malformed", b"z", 0)?;
    text_case::read_to(rt, b"1,057 words, empty input", b"", 1057)?;
    text_case::read_to(rt, b"1,057 words, malformed", b"z", 1057)?;
    text_case::read_to(rt, b"1,057 words, header", b"a100000000000001\n", 1057)?;
    text_case::largest_read_to(rt, b"1,057 words, 1,058 lines", 1057)?;
    text_case::largest_read_to(rt, b"1,058 words, 1,058 lines", 1058)?;
    text_case::largest_read_to(rt, b"1,059 words, 1,058 lines", 1059)
}

fn room_to_write(rt: &impl Print) -> io::Result<()> {
    text_case::written_to(rt, b"0 bytes, 2 frames", &SMALLEST, 0)?;
    text_case::written_to(rt, b"33 bytes, 2 frames", &SMALLEST, 33)?;
    text_case::written_to(rt, b"34 bytes, 2 frames", &SMALLEST, 34)?;
    text_case::written_to(rt, b"35 bytes, 2 frames", &SMALLEST, 35)?;
    text_case::largest_written_to(rt, b"17,985 bytes, 1,058 frames", 17985)?;
    text_case::largest_written_to(rt, b"17,986 bytes, 1,058 frames", 17986)
}

fn refused_before_room(rt: &impl Print) -> io::Result<()> {
    text_case::written_to(rt, b"0 bytes, header", &[0xa100_0000_0000_0001], 0)?;
    text_case::written_to(
        rt,
        b"0 bytes, body",
        &[0xa000_0000_0000_0001, 0xa000_0000_0000_0000],
        0,
    )?;
    text_case::written_to(
        rt,
        b"0 bytes, op",
        &[0xa000_0000_0000_0001, 0xa100_0000_0000_0001, 0],
        0,
    )?;
    text_case::written_to(
        rt,
        b"0 bytes, field",
        &[
            0xa000_0000_0000_0001,
            0xa100_0000_0000_0001,
            0x0101_0000_0000_0000,
        ],
        0,
    )?;
    text_case::written_to(rt, b"0 bytes, short", &[], 0)?;
    text_case::written_to(
        rt,
        b"0 bytes, extra",
        &[
            0xa000_0000_0000_0001,
            0xa100_0000_0000_0000,
            0x4000_0000_0000_0000,
        ],
        0,
    )
}
