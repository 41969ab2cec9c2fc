// The largest image.
use image::Image;

// A body of no instructions, and goto 0, which every body may hold.
const BODY: u64 = 0xa100_0000_0000_0000;

const GOTO: u64 = 0x4000_0000_0000_0000;

// Every count stands at its limit: main has 32 instructions and each other body 31, together 1,024.
// Behind the last due frame stands one more.
pub fn frames() -> [u64; Image::LINES + 1] {
    let mut table = [GOTO; Image::LINES + 1];
    table[0] = 0xa010_2010_0000_0100;
    table[1] = BODY | 32;
    table[2..34].fill(BODY | 31);
    table
}

// The lines of the largest image, and behind them one byte more.
pub fn lines() -> [u8; 17 * Image::LINES + 1] {
    let table = frames();
    let mut text = [0u8; 17 * Image::LINES + 1];
    if let Some(due) = table.get(..Image::LINES) {
        let _ = writer::write(due, &mut text);
    }
    text
}
