// Reads lines `GOALS TEXT` from standard input, the text in hexadecimal, and prints what reading each text gives: `read`, or `refused NUMBER PLACE`; `no case` if there is no line.
#![tactic(auto)]

ghost use Rattle.std.specs.Prelude.{◌≤◌};
ghost use Rattle.sets.specs.Sets.{goal_limit};

use graph::Graph;
use std::io;

// The size of the array into which the lines are read.
const INPUT: usize = 65536;

fn print_text(rt: &impl Print, text: &[u8], n: usize) -> io::Result<()>
    requires { n ≤ goal_limit }
{
    match expression_reading::read_text(text, n) {
        Ok(_) => println!(rt; "read"),
        Err(r) => println!(rt; "{r}"),
    }
}

fn run_line(rt: &impl Print, line: &[u8]) -> io::Result<()> {
    let mut text = [0u8; 1024];
    let n = case_lines::number(case_lines::field(line, 0)) as usize;
    let len = case_lines::bytes(case_lines::field(line, 1), &mut text);
    if n <= Graph::MAX && len <= 1024 {
        print_text(rt, &text[..len], n)?;
    }
    Ok(())
}

fn run_all(rt: &impl Print, s: &[u8]) -> io::Result<()> {
    for piece in s.split_inclusive(|b| *b == b'\n') {
        let line = piece.strip_suffix(b"\n").unwrap_or(piece);
        run_line(rt, line)?;
    }
    Ok(())
}

fn main(rt: HostRuntime) -> io::Result<()> {
    let mut lines = [0u8; INPUT];
    let n = input_bytes::read_full(&mut rt.reader(), &mut lines)?;
    if n == 0 {
        println!(rt; "no case")?;
    }
    run_all(&rt, &lines[..n])
}
