// Writing the printed sheet of a record. Each function writes into a lent array from a place on and answers the next place (crate `buffer`).
#![tactic(auto)]

ghost use Rattle.std.specs.Prelude.{◌≡◌, ◌+◌, ◌^◌, ◌<◌, ◌≤◌, ◌++◌, ◌⊎◌, ℕ, length, take, IfOk, OnOk, OnErr};
ghost use Rattle.std.specs.Io.{ReadsAtMost};
ghost use Rattle.std.specs.Io.KnownBytes.{Appends, Consumes, IsAtEnd};
ghost use Rattle.buffer.specs.Text.{Wrote};
ghost use Rattle.record_fields.specs.Fields as F;
ghost use Rattle.form_first_n.specs.FirstN.{four};
ghost use Rattle.form.specs.Form as P;
ghost use Rattle.mel.specs.Annotation as M;
ghost use Rattle.sheet_text.specs.Sheet as S;
ghost use Rattle.sheet_text.specs.Parts as R;

use form::FormError;
use form_first_n::Four;
use record::Record;
use record_fields::Layout;
use record_rules::Refusal;
use std::io;
use std::io::{Read, Write};

// The size of the array into which a record is read.
pub const INPUT: usize = 4096;

// The size of the array for its MEL text.
pub const MEL_ROOM: usize = 32768;

// The size of the array for the other lines of its sheet.
pub const LINES: usize = 2048;

// The sheet in two arrays: lines[..top], then text[..mel], then lines[top..end]. Places and no slices: `write` answers while both arrays are lent to it, and its clauses name R.parts_of.
#[derive(Drop)]
pub struct Parts {
    pub top: usize,
    pub mel: usize,
    pub end: usize,
}

// Writes a space and n.
fn put_spaced(out: &mut [u8], at: usize, n: usize) -> usize
    requires { at + length (S.spaced n) < 2 ^ 63 }
    ensures { Wrote (S.spaced n) at out.old result out.new }
{
    let o = buffer::put_byte(out, at, b' ');
    buffer::put_number(out, o, n)
}

// Writes the line of a refusal: `refused`, its number and its place.
fn put_refused(out: &mut [u8], at: usize, r: Refusal) -> usize
    requires { at + 64 < 2 ^ 63 }
    ensures wrote { Wrote (S.line (S.refused_text r.number r.place)) at out.old result out.new }
    ensures upper_bound { result ≤ at + 64 }
{
    let mut o = buffer::put_bytes(out, at, b"refused ");
    o = buffer::put_number(out, o, usize::from(r.number));
    o = put_spaced(out, o, r.place);
    buffer::put_byte(out, o, b'\n')
}

// Writes the line of the number of goals.
fn put_count(out: &mut [u8], at: usize, n: usize) -> usize
    requires { at + length (R.count_line n) < 2 ^ 63 }
    ensures { Wrote (R.count_line n) at out.old result out.new }
{
    let mut o = buffer::put_bytes(out, at, b"goals ");
    o = buffer::put_number(out, o, n);
    buffer::put_byte(out, o, b'\n')
}

// Writes the line of goal g, with the text that is shown for it.
fn put_goal(out: &mut [u8], at: usize, g: usize, shown: &[u8]) -> usize
    requires { at + length (R.goal_line g shown.now) < 2 ^ 63 }
    ensures { Wrote (R.goal_line g shown.now) at out.old result out.new }
{
    let mut o = buffer::put_number(out, at, g);
    o = buffer::put_byte(out, o, b' ');
    o = buffer::put_bytes(out, o, shown);
    buffer::put_byte(out, o, b'\n')
}

// Writes the line of each goal, which shows its text.
fn put_goals(out: &mut [u8], at: usize, given: Record<'_>) -> usize
    requires { at + R.line_room < 2 ^ 63 }
    ensures { Wrote (S.goal_lines (S.goal_text given.entry.bytes.now) (F.goal_count given.entry.bytes.now)) at out.old result out.new }
{
    let bytes = given.bytes;
    let n = record_fields::goal_count(bytes);
    let layout = Layout::of(bytes);
    let mut o = at;
    let mut place = record_fields::HEADER;
    for g in 0..n {
        let start = layout.text_at(place);
        let end = layout.goal_end(place);
        o = put_goal(out, o, g + 1, &bytes[start..end]);
        place = end;
    }
    o
}

// Writes `form none` and the four goals.
fn put_none(out: &mut [u8], at: usize, q: Four) -> usize
    requires { at + length (S.none_line (four q)) < 2 ^ 63 }
    ensures { Wrote (S.none_line (four q)) at out.old result out.new }
{
    let mut o = buffer::put_bytes(out, at, b"form none");
    o = put_spaced(out, o, q.a);
    o = put_spaced(out, o, q.b);
    o = put_spaced(out, o, q.c);
    put_spaced(out, o, q.d)
}

// Writes `form` and the text of the form, or that there is none.
fn put_form(out: &mut [u8], at: usize, given: Record<'_>) -> usize
    requires { at + R.line_room < 2 ^ 63 }
    ensures { Wrote (S.form_line (P.shown given.entry.bytes.now) (P.form_text given.entry.bytes.now)) at out.old result out.new }
{
    let mut space = [0u8; form::LONGEST];
    match form::write(given.bytes, &mut space) {
        Err(FormError::Refused(_)) => at,
        Err(FormError::NoForm(q)) => put_none(out, at, q),
        Ok(n) => {
            let o = buffer::put_bytes(out, at, b"form ");
            buffer::put_bytes(out, o, &space[..n])
        }
    }
}

// Writes the lines of an accepted record up to its MEL text.
fn put_top(out: &mut [u8], given: Record<'_>) -> usize
    ensures { Wrote (R.accepted_top given.entry.bytes.now) 0 out.old result out.new }
{
    let goals = record_fields::goal_count(given.bytes);
    let mut o = put_count(out, 0, goals);
    o = put_goals(out, o, given);
    o = put_form(out, o, given);
    buffer::put_bytes(out, o, b"\nmel ")
}

// Writes the MEL text into `text` and what follows it into `lines`.
fn put_mel(lines: &mut [u8], top: usize, given: Record<'_>, text: &mut [u8]) -> Parts
    requires text_len { length text.old ≡ S.mel_room }
    requires top_bound { top + R.line_room < 2 ^ 63 }
    ensures top_value { result.top ≡ top }
    ensures mel_value { result.mel ≡ length (R.mel_shown (M.mel given.entry.bytes.now)) }
    ensures end_bound { result.end ≤ top + 64 }
    ensures wrote { Wrote (R.mel_rest (M.mel given.entry.bytes.now)) top lines.old result.end lines.new }
    ensures text_after { text.new ≡ M.mel_buffer given.entry.bytes.now text.old }
{
    match mel::write(given.bytes, text) {
        Ok(n) => {
            let end = buffer::put_byte(lines, top, b'\n');
            Parts { top, mel: n, end }
        }
        Err(r) => {
            let end = put_refused(lines, top, r);
            Parts { top, mel: 0, end }
        }
    }
}

// Writes the sheet of a record: the MEL text into `text`, everything else into `lines`. Slices of these lengths, here
// and in `run`, and no arrays: an array asks more of a caller who has a slice.
pub fn write(bytes: &[u8], lines: &mut [u8], text: &mut [u8]) -> Parts
    requires in_bounds { R.line_room ≤ length lines.old }
    requires text_len { length text.old ≡ S.mel_room }
    ensures value { result ≡ R.parts_of bytes.now }
    ensures shows { R.Shows bytes.now lines.new text.new result }
    ensures wrote { Wrote (R.lines bytes.now) 0 lines.old result.end lines.new }
    ensures text_after { text.new ≡ M.mel_buffer bytes.now text.old }
{
    match record::accept(bytes) {
        Err(r) => {
            let top = put_refused(lines, 0, r);
            Parts {
                top,
                mel: 0,
                end: top,
            }
        }
        Ok(given) => {
            let top = put_top(lines, given);
            put_mel(lines, top, given, text)
        }
    }
}

// Writes three parts, one after the other.
fn put_parts<W: Write>(out: &mut W, top: &[u8], mel: &[u8], rest: &[u8]) -> io::Result<()>
    ensures { OnOk result (Appends (W.contents out.old) (W.contents out.new) (top.now ++ mel.now ++ rest.now)) }
{
    out.write_all(top)?;
    out.write_all(mel)?;
    out.write_all(rest)
}

// Prints the sheet of a record: the three parts that `write` names. `text` is the room for the MEL text.
fn print<W: Write>(out: &mut W, bytes: &[u8], text: &mut [u8]) -> io::Result<()>
    requires { length text.old ≡ S.mel_room }
    ensures text_after { text.new ≡ M.mel_buffer bytes.now text.old }
    ensures printed { OnOk result (Appends (W.contents out.old) (W.contents out.new) (S.sheet bytes.now)) }
{
    let mut space = [0u8; LINES];
    let parts = write(bytes, &mut space, text);
    let top = parts.top;
    let mel = parts.mel;
    let end = parts.end;
    let lines: &[u8] = &space;
    put_parts(out, &lines[..top], &text[..mel], &lines[top..end])
}

// Reads a record from `reader` into `input`, until the array is full or the reader ends, and prints its sheet to `out`. Answers the record's length.
pub fn run<R: Read, W: Write>(
    reader: &mut R,
    out: &mut W,
    input: &mut [u8],
    text: &mut [u8],
) -> io::Result<usize>
    requires input_len { length input.old ≡ S.input_room }
    requires text_len { length text.old ≡ S.mel_room }
    ensures prefix_len { ReadsAtMost result input.new }
    ensures text_after { IfOk result (λ n. text.new ≡ M.mel_buffer (take n input.new) text.old) }
    ensures taken { IfOk result (λ n. Consumes (R.remaining reader.old) (R.remaining reader.new) (take n input.new)) }
    ensures end { IfOk result (λ n. n < length input.new → IsAtEnd (R.remaining reader.new)) }
    ensures printed { IfOk result (λ n. Appends (W.contents out.old) (W.contents out.new) (S.sheet (take n input.new))) }
    ensures err { OnErr result ((text.new ≡ text.old) ⊎ ((n : ℕ) × (n ≤ length input.new) × (text.new ≡ M.mel_buffer (take n input.new) text.old))) }
{
    let n = input_bytes::read_full(reader, input)?;
    print(out, &input[..n], text)?;
    Ok(n)
}
