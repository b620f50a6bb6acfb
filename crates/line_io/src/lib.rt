// Lines: from a reader, and to a writer, in constant memory. No contract says what the system gives or takes;
// what is done with the bytes once they are read, and before they are written, is an equation.
#![tactic(auto)]

ghost use Rattle.std.specs.Prelude.{◌≡◌, ◌≤◌, ltb, length, replicate, IfSome};
ghost use Rattle.line_io.specs.Taking.{no_line, added_line, added_bytes, untaken, in_chunk, taken};
ghost use Rattle.line_io.specs.Going.{nothing_yet, is_open};
ghost use Rattle.line_io.specs.Putting.{Written, Puts};
ghost use Rattle.line_io.specs.Lines.{first_line, Refills, Holds, Steps, Finds};

use std::io::{Read, Write};

// How many bytes a program reads at once, and how many may wait before they are written.
pub const BUFFER: usize = 65_536;

// Where the reading stands: the chunk's bytes from `at` to `end` were read and are not taken yet.
#[derive(Clone, Copy)]
pub struct Input {
    pub at: usize,
    pub end: usize,
    // whether a read met the input's end, or failed
    pub ended: bool,
    pub failed: bool,
}

// What is known of a line.
#[derive(Clone, Copy)]
pub struct Line {
    // whether there is one: behind the last newline there may be nothing
    pub found: bool,
    // whether its end was met: its newline, or the input's end
    pub whole: bool,
    // how many of its bytes are kept, at the front of the line buffer
    pub kept: usize,
    // whether it has more bytes than that
    pub cut: bool,
}

// How many bytes of the output buffer wait to be written, and whether a write failed.
#[derive(Clone, Copy)]
pub struct Output {
    pub used: usize,
    pub failed: bool,
}

// The state of a program that goes through the lines.
#[derive(Clone, Copy)]
pub struct State {
    pub input: Input,
    pub output: Output,
    pub line: Line,
}

// What is taken of a chunk.
#[derive(Clone, Copy)]
struct Taken {
    input: Input,
    line: Line,
}

// ---- writing

// Writes all the bytes, and says whether that went well.
fn write_whole<W: Write>(writer: &mut W, bytes: &[u8]) -> bool {
    writer.write_all(bytes).is_ok()
}

// Writes what waits in the buffer. Behind a failed write nothing more is written.
fn flush<W: Write>(writer: &mut W, buffer: &[u8], o: Output) -> Output
    ensures { Written o result }
{
    if o.failed {
        return Output {
            used: 0,
            failed: true,
        };
    }
    let used = o.used.min(buffer.len());
    let is_written = write_whole(writer, &buffer[..used]);
    Output {
        used: 0,
        failed: !is_written,
    }
}

// Puts bytes behind those that wait; these are written first where the buffer has no room for both.
pub fn put<W: Write>(writer: &mut W, text: &[u8], buffer: &mut [u8], o: Output) -> Output
    ensures { Puts o result text.now buffer.old buffer.new }
{
    let used = o.used.min(buffer.len());
    let n = text.len();
    if n <= buffer.len() - used {
        let both = used + n;
        base_bytes::copy(text, &mut buffer[used..]);
        return Output {
            used: both,
            failed: o.failed,
        };
    }
    let flushed = flush(writer, buffer, o);
    if n <= buffer.len() {
        base_bytes::copy(text, buffer);
        return Output {
            used: n,
            failed: flushed.failed,
        };
    }
    // more than the whole buffer holds: written as it is
    if flushed.failed {
        return flushed;
    }
    let is_written = write_whole(writer, text);
    Output {
        used: 0,
        failed: !is_written,
    }
}

// ---- reading

// Nothing of the line is met yet.
fn no_line() -> Line
    ensures { result ≡ no_line }
{
    Line {
        found: false,
        whole: false,
        kept: 0,
        cut: false,
    }
}

// The input as far as the chunk reaches.
fn in_chunk(input: Input, chunk: &[u8]) -> Input
    ensures { result ≡ in_chunk input (length chunk.now) }
{
    Input {
        end: input.end.min(chunk.len()),
        ..input
    }
}

// Reads a new chunk where all of the old one is taken. A read that moves no bytes met the end or failed.
fn refill<R: Read>(reader: &mut R, old: Input, chunk: &mut [u8]) -> Input
    requires { old.end ≤ length chunk.old }
    ensures { Refills old result chunk.old chunk.new }
{
    if old.at < old.end {
        return old;
    }
    if old.ended {
        return Input {
            at: 0,
            end: 0,
            ended: true,
            failed: old.failed,
        };
    }
    match reader.read(chunk) {
        Ok(n) => Input {
            at: 0,
            end: n,
            ended: n == 0,
            failed: false,
        },
        Err(_) => Input {
            at: 0,
            end: 0,
            ended: true,
            failed: true,
        },
    }
}

// The line with a part of it more: as many of the part's bytes as the line buffer has room for.
fn add_part(part: &[u8], line: &mut [u8], l: Line) -> Line
    requires { l.kept ≤ length line.old }
    ensures { (result ≡ added_line l (length part.now) (length line.old))
        × (line.new ≡ added_bytes l part.now line.old) }
{
    let kept = l.kept;
    let room = line.len() - kept;
    let n = part.len();
    if room < n {
        base_bytes::copy(&part[..room], &mut line[kept..]);
        return Line {
            found: true,
            whole: l.whole,
            kept: kept + room,
            cut: true,
        };
    }
    base_bytes::copy(part, &mut line[kept..]);
    Line {
        found: true,
        whole: l.whole,
        kept: kept + n,
        cut: l.cut,
    }
}

// Takes the line's bytes, and the newline behind them, from the chunk.
fn take_part(input: Input, chunk: &[u8], line: &mut [u8], l: Line) -> Taken
    requires { (input.at ≤ input.end) × (input.end ≤ length chunk.now) × (l.kept ≤ length line.old) }
    ensures { (result ≡ taken input l (untaken input chunk.now) (length line.old))
        × (line.new ≡ added_bytes l (first_line (untaken input chunk.now)) line.old) }
{
    let at = input.at;
    let end = input.end;
    let e = at + base_bytes::find(&chunk[at..end], b'\n');
    let more = add_part(&chunk[at..e], line, l);
    if e < end {
        return Taken {
            input: Input { at: e + 1, ..input },
            line: Line {
                whole: true,
                ..more
            },
        };
    }
    Taken {
        input: Input { at: end, ..input },
        line: more,
    }
}

// One read at most, and what it brought of the line. What waits is written before a read, which may itself have to wait for more input.
fn step<R: Read, W: Write>(
    reader: &mut R,
    writer: &mut W,
    s: State,
    chunk: &mut [u8],
    line: &mut [u8],
    buffer: &[u8],
) -> State
    requires { s.line.kept ≤ length line.old }
    ensures { Steps s result chunk.old chunk.new line.old line.new }
{
    let l = s.line;
    let before = in_chunk(s.input, chunk);
    let output = flush_before_read(writer, before, buffer, s.output);
    let input = refill(reader, before, chunk);
    if input.at < input.end {
        let t = take_part(input, chunk, line, l);
        return State {
            input: t.input,
            output: output,
            line: t.line,
        };
    }
    State {
        input: input,
        output: output,
        line: Line { whole: true, ..l },
    }
}

fn flush_before_read<W: Write>(writer: &mut W, i: Input, buffer: &[u8], o: Output) -> Output
    ensures { Holds (ltb i.at i.end) o result }
{
    if i.at < i.end {
        return o;
    }
    flush(writer, buffer, o)
}

// ---- going through the lines

// Nothing is read or written yet.
pub fn start() -> State
    ensures { result ≡ nothing_yet }
{
    State {
        input: Input {
            at: 0,
            end: 0,
            ended: false,
            failed: false,
        },
        output: Output {
            used: 0,
            failed: false,
        },
        line: no_line(),
    }
}

// The next line: its first bytes, as many as the line buffer holds; the rest of it is passed over.
// The lent bytes stay parameters of their own, and in no struct: the clause names the old and the new bytes of each.
// A proved loop has to end, and nothing says that a line does; so the turns are counted to a number that no run reaches.
pub fn next_line<R: Read, W: Write>(
    reader: &mut R,
    writer: &mut W,
    s: State,
    chunk: &mut [u8],
    line: &mut [u8],
    buffer: &[u8],
) -> State
    ensures { Finds s.input s.output result chunk.old chunk.new line.old line.new }
{
    let mut t = State {
        line: no_line(),
        ..s
    };
    for _turn in 0..u64::MAX {
        if t.line.whole {
            break;
        }
        t = step(reader, writer, t, chunk, line, buffer);
    }
    t
}

// Whether there may be another line, and its answer can be written.
pub fn is_open(s: State) -> bool
    ensures { result ≡ is_open s }
{
    !s.output.failed && (s.line.found || !s.line.whole)
}

// Writes what still waits, and says to `errors` what failed.
pub fn finish<W: Write, E: Write>(writer: &mut W, errors: &mut E, s: State, buffer: &[u8]) {
    let output = flush(writer, buffer, s.output);
    if s.input.failed {
        write_whole(errors, b"standard input cannot be read\n");
    }
    if output.failed {
        write_whole(errors, b"standard output cannot be written\n");
    }
}

// ---- a program that answers each line

// What a program says of a line: it is given the line's number, its bytes and the text's, and returns how many of these the answer has.
// What it refuses has no answer.
pub trait Answers {
    fn answer(&self, k: u64, line: &[u8], text: &mut [u8]) -> Option<usize>
        ensures { IfSome result (λ n. n ≤ length text.new) };
}

// Takes the lines one by one, and puts the answer to each behind those that wait. As many bytes of a line are kept as are lent for it,
// and an answer has room for as many as are lent for its text. Both are zeros afterwards.
pub fn answer_lines<R: Read, W: Write, E: Write, A: Answers>(
    reader: &mut R,
    writer: &mut W,
    errors: &mut E,
    answers: &A,
    line: &mut [u8],
    text: &mut [u8],
)
    ensures line_after { line.new ≡ replicate (length line.old) 0 }
    ensures text_after { text.new ≡ replicate (length text.old) 0 }
{
    let mut chunk = [0u8; BUFFER];
    let mut buffer = [0u8; BUFFER];
    let mut s = start();
    // A proved loop has to end, so the lines are counted to a number that no run reaches.
    for k in 1..=u64::MAX {
        if !is_open(s) {
            break;
        }
        s = next_line(reader, writer, s, &mut chunk, line, &buffer);
        if s.line.found {
            if let Some(n) = answers.answer(k, &line[..s.line.kept], text) {
                s.output = put(writer, &text[..n], &mut buffer, s.output);
            }
        }
    }
    finish(writer, errors, s, &buffer);
    line.fill(0);
    text.fill(0);
}
