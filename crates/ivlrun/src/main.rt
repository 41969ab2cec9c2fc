// The run program: a job on standard input, its answer on standard output.
#![tactic(auto)]

use std::io;

fn main(rt: HostRuntime) -> io::Result<()> {
    let mut text = [0u8; job::LONGEST_JOB];
    let n = stream::read_full(&mut rt.stdin(), &mut text)?;
    let mut out = [0u8; job::LONGEST_ANSWER];
    let m = job::answer(&text[..n], &mut out).unwrap_or(0);
    rt.write_all(&out[..m])
}
