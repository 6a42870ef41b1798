// Runs the cases of cases.txt and prints one answer a line, in the words of the conformance kit; `no case` if there is none.
#![tactic(auto)]

ghost use Rattle.std.specs.Prelude.{◌≤◌, length, IfOk};

use graph::Graph;
use order_compare::Verdict;
use std::io::{Read, Write};
use std::{fmt, fs, io};

// How many cases are run after the first.
const MOST: usize = 100000;

// The bytes in hexadecimal.
fn say_hex<W: Write>(out: &mut W, bytes: &[u8]) -> io::Result<()> {
    for b in bytes {
        write!(out, "{b:02x}")?;
    }
    Ok(())
}

// The bytes in hexadecimal, `-` where there are none.
fn say_bytes<W: Write>(out: &mut W, bytes: &[u8]) -> io::Result<()> {
    if bytes.is_empty() {
        write!(out, "-")?;
    }
    say_hex(out, bytes)
}

fn say_text<W: Write>(out: &mut W, bytes: &[u8]) -> io::Result<()> {
    let len = bytes.len();
    write!(out, "ok {len} ")?;
    say_bytes(out, bytes)?;
    writeln!(out)
}

fn run_read<W: Write>(out: &mut W, bytes: &[u8]) -> io::Result<()> {
    match annotator::read(bytes) {
        Ok(_) => writeln!(out, "ok"),
        Err(r) => writeln!(out, "{r}"),
    }
}

fn say_graph<W: Write>(out: &mut W, g: Graph) -> io::Result<()> {
    let n = g.n.min(Graph::MAX);
    write!(out, "ok {n}")?;
    for row in &g.rows[..n] {
        write!(out, " {row:08x}")?;
    }
    writeln!(out)
}

fn run_order<W: Write>(out: &mut W, bytes: &[u8]) -> io::Result<()> {
    let answer = annotator::order(bytes);
    match answer.reading {
        Ok(_) => say_graph(out, answer.graph),
        Err(r) => writeln!(out, "{r}"),
    }
}

fn run_passes<W: Write>(out: &mut W, bytes: &[u8]) -> io::Result<()> {
    let answer = annotator::order(bytes);
    match answer.reading {
        Ok(_) => writeln!(out, "ok {}", answer.passes),
        Err(r) => writeln!(out, "{r}"),
    }
}

// The first k bytes of a buffer, or nothing where it has fewer.
fn say_front<W: Write>(out: &mut W, room: &[u8], k: usize) -> io::Result<()> {
    match room.get(..k) {
        Some(front) => say_text(out, front),
        None => Ok(()),
    }
}

fn run_length<W: Write>(out: &mut W, bytes: &[u8]) -> io::Result<()> {
    match annotator::form_length(bytes) {
        Ok(k) => writeln!(out, "ok {k}"),
        Err(e) => writeln!(out, "{e}"),
    }
}

fn run_text<W: Write>(out: &mut W, bytes: &[u8], goal: u32) -> io::Result<()> {
    match annotator::find_text(bytes, goal) {
        Ok(s) => {
            let part = annotator::goal_text(bytes, goal);
            let len = part.len();
            write!(out, "ok {} {len} ", s.place)?;
            say_bytes(out, part)?;
            writeln!(out)
        }
        Err(r) => writeln!(out, "{r}"),
    }
}

fn run_check<W: Write>(out: &mut W, bytes: &[u8], text: &[u8]) -> io::Result<()> {
    match annotator::check(bytes, text) {
        Ok(Verdict::Same) => writeln!(out, "same"),
        Ok(Verdict::Differs(p)) => writeln!(out, "differs {} {}", p.i, p.j),
        Err(r) => writeln!(out, "{r}"),
    }
}

// The waits of a record before closure.
fn run_waits<W: Write>(out: &mut W, bytes: &[u8]) -> io::Result<()> {
    match record::accept(bytes) {
        Ok(given) => say_graph(out, order::waits_of(&clause::decode(given))),
        Err(r) => writeln!(out, "{r}"),
    }
}

// A part of an array, where it lies inside.
fn say_part<W: Write>(out: &mut W, bytes: &[u8], from: usize, end: usize) -> io::Result<()> {
    match bytes.get(from..end) {
        Some(part) => say_hex(out, part),
        None => Ok(()),
    }
}

// The sheet, in its three parts.
fn run_sheet<W: Write>(out: &mut W, bytes: &[u8]) -> io::Result<()> {
    let mut lines = [0u8; sheet_text::LINES];
    let mut text = [0u8; sheet_text::MEL_ROOM];
    let parts = sheet_text::write(bytes, &mut lines, &mut text);
    write!(out, "ok ")?;
    say_part(out, &lines, 0, parts.top)?;
    say_part(out, &text, 0, parts.mel)?;
    say_part(out, &lines, parts.top, parts.end)?;
    writeln!(out)
}

// Runs an operation that writes into a buffer of so many bytes. In line, the buffer of each operation would stand on the stack of every case.
#[inline(never)]
fn run_writer<W: Write, E: fmt::Display + Drop, F: FnOnce(&[u8], &mut [u8]) -> Result<usize, E>>(
    out: &mut W,
    bytes: &[u8],
    room: usize,
    run: F,
) -> io::Result<()>
    requires { F.IsAlwaysCallable run }
{
    let mut space = [0u8; 196608];
    let n = room.min(space.len());
    let lent = &mut space[..n];
    match run(bytes, lent) {
        Ok(k) => say_front(out, lent, k),
        Err(e) => writeln!(out, "{e}"),
    }
}

// A case with a second text. Writer, line and record are handed on as they are, and as no struct: each function takes one of them apart.
fn run_second<W: Write>(out: &mut W, line: &[u8], bytes: &[u8]) -> io::Result<()> {
    let mut text = [0u8; 1024];
    let n = case_lines::bytes(case_lines::field(line, 3), &mut text).min(1024);
    run_check(out, bytes, &text[..n])
}

// Runs the operation of a case on its record.
fn run_operation<W: Write>(out: &mut W, line: &[u8], bytes: &[u8]) -> io::Result<()> {
    let number = case_lines::number(case_lines::field(line, 3));
    match case_lines::field(line, 0) {
        b"read" => run_read(out, bytes),
        b"waits" => run_waits(out, bytes),
        b"order" => run_order(out, bytes),
        b"passes" => run_passes(out, bytes),
        b"length" => run_length(out, bytes),
        b"text" => run_text(out, bytes, number as u32),
        b"sheet" => run_sheet(out, bytes),
        b"check" => run_second(out, line, bytes),
        b"mel" => run_writer(out, bytes, number as usize, annotator::mel),
        b"form" => run_writer(out, bytes, number as usize, annotator::form),
        _ => Ok(()),
    }
}

fn run_case<W: Write>(out: &mut W, line: &[u8]) -> io::Result<()> {
    let mut bytes = [0u8; sheet_text::INPUT];
    let n = case_lines::bytes(case_lines::field(line, 2), &mut bytes).min(sheet_text::INPUT);
    run_operation(out, line, &bytes[..n])
}

// The next byte of a file, or a line feed at its end.
fn next_byte<R: Read>(file: &mut R) -> io::Result<u8> {
    let mut one = [0u8; 1];
    let n = file.read(&mut one)?;
    Ok(if n == 0 { 10 } else { one[0] })
}

// Reads a line, without its line feed, and answers its length: 0 at the end of the file.
fn read_line<R: Read>(file: &mut R, line: &mut [u8]) -> io::Result<usize>
    ensures { IfOk result (λ n. n ≤ length line.new) }
{
    let len = line.len();
    for at in 0..len {
        let b = next_byte(file)?;
        if b == 10 {
            return Ok(at);
        }
        line[at] = b;
    }
    Ok(len)
}

// Runs the next case of a file; answers whether there was one.
fn run_next<R: Read, W: Write>(file: &mut R, out: &mut W) -> io::Result<bool> {
    let mut line = [0u8; 32768];
    let n = read_line(file, &mut line)?;
    if n == 0 {
        return Ok(false);
    }
    run_case(out, &line[..n])?;
    Ok(true)
}

// Runs the cases of a file after its first, up to its first empty line or its end, and no more than `MOST`.
fn run_others<R: Read, W: Write>(file: &mut R, out: &mut W) -> io::Result<()> {
    for _ in 0..MOST {
        if !run_next(file, out)? {
            break;
        }
    }
    Ok(())
}

// Runs the cases of a file; says so if it has none.
fn run_file<R: Read, W: Write>(file: &mut R, out: &mut W) -> io::Result<()> {
    if run_next(file, out)? {
        run_others(file, out)
    } else {
        writeln!(out, "no case")
    }
}

fn main(rt: HostRuntime) -> io::Result<()> {
    let mut file = fs::open(&rt, "cases.txt")?;
    run_file(&mut file, &mut io::writer(&rt))
}
