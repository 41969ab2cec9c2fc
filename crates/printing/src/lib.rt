// The answer of a run as text.
#![tactic(auto)]

ghost use Rattle.std.specs.Prelude.{◌≡◌, ◌+◌, ◌*◌, ◌≤◌, leb, length};
ghost use Rattle.std.proofs.lemmas.List.Edits.{sets};
ghost use Rattle.answer.specs.Answer.{said};
ghost use Rattle.program.specs.Printing.{field, stop_fields, count_fields, answer_line, cell_lines, shown};
ghost use Rattle.program.specs.Whole.{wrote, put, shown_in};

use answer::Answer;

// The bytes of the answer's line and of a cell's line.
pub const ANSWER_LINE: usize = 44;

pub const CELL_LINE: usize = 9;

// Writes the n digits of x from byte at on, and the byte that follows them.
fn put_field(x: u32, n: usize, end: u8, out: &mut [u8], at: usize)
    requires { at + n + 1 ≤ length out.old }
    ensures { out.new ≡ sets out.old at (field n x end) }
{
    hexadecimal::write_at(u64::from(x), n, out, at);
    out[at + n] = end;
}

// Writes where and when the run stopped.
fn put_stop(a: Answer, out: &mut [u8; ANSWER_LINE])
    ensures { out.new ≡ sets out.old 0 (stop_fields (said a)) }
{
    put_field(a.number, 2, b' ', out, 0);
    put_field(a.body, 2, b' ', out, 3);
    put_field(a.place, 4, b' ', out, 6);
    put_field(a.time, 8, b' ', out, 11);
}

// Writes what the run took and left.
fn put_counts(a: Answer, out: &mut [u8; ANSWER_LINE])
    ensures { out.new ≡ sets out.old 20 (count_fields (said a)) }
{
    put_field(a.instructions, 8, b' ', out, 20);
    put_field(a.choices, 4, b' ', out, 29);
    put_field(a.inputs, 4, b' ', out, 34);
    put_field(a.threads, 4, b'\n', out, 39);
}

// Writes the answer's line.
fn put_answer(a: Answer, out: &mut [u8; ANSWER_LINE])
    ensures { out.new ≡ answer_line (said a) }
{
    put_stop(a, out);
    put_counts(a, out);
}

// Writes the lines of the cells.
fn put_cells(cells: &[u32], out: &mut [u8])
    requires { 9 * length cells.now ≤ length out.old }
    ensures { out.new ≡ sets out.old 0 (cell_lines cells.now) }
{
    for (i, &cell) in cells.iter().enumerate() {
        put_field(cell, 8, b'\n', out, CELL_LINE * i);
    }
}

// Writes an answer to the start of out, with the cells unless it is a refusal, and answers how many bytes it has; writes nothing where
// out has not room for both.
pub fn show(a: Answer, cells: &[u32], out: &mut [u8]) -> Option<usize>
    ensures { wrote result out.new ≡ shown_in (said a) cells.now out.old }
{
    let (line, lines) = out.split_first_chunk_mut::<ANSWER_LINE>()?;
    if lines.len() / CELL_LINE < cells.len() {
        return None;
    }
    put_answer(a, line);
    if program::is_refusal(a.number) {
        return Some(ANSWER_LINE);
    }
    put_cells(cells, lines);
    Some(ANSWER_LINE + CELL_LINE * cells.len())
}
