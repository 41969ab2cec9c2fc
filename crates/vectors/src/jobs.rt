// The cases of standard input, one after another. Each begins with a line of its own, by whose first byte it is known:
// `+` is a heading, `-` a table to be judged, `#` a job to be answered. What belongs to it are the lines up to the next
// that begins with one of the three, or to the input's end.
ghost use Rattle.std.specs.Prelude.{◌<◌, ◌≤◌, length, IfOk};

use std::io;

// More bytes than the file stdin has: what lies past them would be left out, and be missed in what is printed.
const INPUT: usize = 0x4_0000;

// The index after the next 0a, or after the text's last byte.
fn past_line(text: &[u8], at: usize) -> usize
    requires { at < length text.now }
    ensures lower_bound { at < result }
    ensures upper_bound { result ≤ length text.now }
{
    match text[at..].iter().position(|&b| b == b'\n') {
        Some(i) => at + i + 1,
        None => text.len(),
    }
}

fn is_mark(byte: u8) -> bool {
    byte == b'+' || byte == b'-' || byte == b'#'
}

// Where the next case begins, looked for at this line and those after it; or the text's end.
fn past_lines(text: &[u8], at: usize) -> usize
    requires { at ≤ length text.now }
    ensures lower_bound { at ≤ result }
    ensures upper_bound { result ≤ length text.now }
{
    let mut line = at;
    // By whole lines, which no iterator of the library goes by.
    while line < text.len() {
        if is_mark(text[line]) {
            return line;
        }
        line = past_line(text, line);
    }
    line
}

// The title is printed as it stands, and after it the whole answer of the program.
fn answered(rt: &impl Print, title: &[u8], job: &[u8]) -> io::Result<()> {
    let mut out = [0u8; job::LONGEST_ANSWER];
    let bytes = job::answer(job, &mut out).unwrap_or(0);
    rt.write_all(title)?;
    rt.write_all(&out[..bytes])
}

// One case. Its answer is where the next begins.
fn one_case(rt: &impl Print, text: &[u8], at: usize) -> io::Result<usize>
    requires { at < length text.now }
    ensures lower_bound { IfOk result (λ next. at < next) }
    ensures upper_bound { IfOk result (λ next. next ≤ length text.now) }
{
    let start = past_line(text, at);
    let end = past_lines(text, start);
    if text[at] == b'#' {
        answered(rt, &text[at..start], &text[start..end])?;
    } else {
        cases::tables::shown(rt, text[at], &text[at..start], &text[start..end])?;
    }
    Ok(end)
}

fn each_case(rt: &impl Print, text: &[u8]) -> io::Result<()> {
    let mut at = 0;
    // Each case says where the next begins.
    while at < text.len() {
        at = one_case(rt, text, at)?;
    }
    Ok(())
}

pub fn answers(rt: &(impl Input + Print)) -> io::Result<()> {
    let mut text = [0u8; INPUT];
    let bytes = stream::read_full(&mut rt.reader(), &mut text)?;
    each_case(rt, &text[..bytes])
}
