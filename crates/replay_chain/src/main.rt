#![tactic(auto)]
// Reads a batch of sheets from standard input, parted by the five bytes `====` and newline, and writes their answers, parted
// alike. A part that is one line with a setting holds for the sheets behind it and has an empty answer:
//   buffers FIRST SECOND   the chain buffers have so many floats, each at most 65,536; 8,192 before the first such part
//   ask chain              the answer is what the program `chain` prints, as before the first such part
//   mode strict            edges are drawn in strict mode
//   mode reference         and in the one that is equal to the Rust, as before the first such part
//   ask both               the answer is the whole of what `draw` answers, with every float of both buffers
ghost use Rattle.std.specs.Prelude.{◌+◌, ◌*◌, ◌≤◌, length};
ghost use Rattle.edge_record.specs.Chain.{width, most};
ghost use Rattle.text_listing.specs.Listing.{line_bytes, refusal_bytes};

use draw_spec::{Drawn, Way};
use options::Mode;
use refusal::Refusal;
use replay_text::{Parts, Waiting};
use sheet::SheetTables;
use sheet_layout::Column::Word;
use std::io::{Print, Stdout};

// One byte more than a sheet may have, and four for the separator behind it.
const SIZE: usize = sheet_layout::SIZE + 5;

// The most floats of a chain buffer: room for the longest chain.
const FLOATS: usize = edge_record::WIDTH * edge_record::MOST;

// Room for every listing: the floats' bytes, and those of a refusal, which are more than the names'.
const BYTES: usize = text_listing::REFUSAL_BYTES + text_listing::FLOAT_BYTES * FLOATS;

// Where the parameters of a chord lie in its buffer: behind x y z of both records.
const START: usize = 3;

const END: usize = edge_record::WIDTH + START;

// What both buffers hold before an edge is drawn, so that a float that is left as it was shows: 4055555555555555.
const BEFORE: f64 = 85.33333333333333;

// The bits of a NaN that an operation makes.
const QUIET: u64 = 0x7FF8000000000000;

// How sheets are answered: the floats of both chain buffers, the mode, and whether the whole answer is asked for.
#[derive(Clone, Copy)]
struct Settings {
    first: usize,
    second: usize,
    mode: Mode,
    both: bool,
}

// The settings with the sizes that a part sets, if it is a line that does.
fn with_sizes(text: &[u8], settings: Settings) -> Option<Settings> {
    let rest = text.strip_prefix(b"buffers ")?;
    let ([first, second, ..], rest) = sheet_layout::line(rest, &[Word, Word])?;
    let most = FLOATS as u64;
    if !rest.is_empty() || most < first || most < second {
        return None;
    }
    Some(Settings {
        first: first as usize,
        second: second as usize,
        ..settings
    })
}

// The settings behind a part that changes them; none for a sheet.
fn set(text: &[u8], settings: Settings) -> Option<Settings> {
    match text {
        b"ask both\n" => Some(Settings {
            both: true,
            ..settings
        }),
        b"ask chain\n" => Some(Settings {
            both: false,
            ..settings
        }),
        b"mode strict\n" => Some(Settings {
            mode: Mode::Strict,
            ..settings
        }),
        b"mode reference\n" => Some(Settings {
            mode: Mode::Reference,
            ..settings
        }),
        _ => with_sizes(text, settings),
    }
}

// The bits of float i of a buffer if it is NaN. A NaN parameter is the copy of an end of the edge's range, of which a float does
// not keep the bits: only a chord has one.
fn nan_at(i: usize, start: u64, end: u64) -> u64 {
    match i {
        START => start,
        END => end,
        _ => QUIET,
    }
}

// The bits of x, or `nan` if it is NaN, then the byte `end`.
fn put_float_or(x: f64, nan: u64, end: u8, out: &mut Waiting) {
    if x.is_nan() {
        out.put_hex(nan, end);
    } else {
        out.put_float(x, end);
    }
}

// All floats of a buffer on one line. `start` and `end` are the bits of a chord's parameters if they are NaN.
fn put_floats(buffer: &[f64], start: u64, end: u64, out: &mut Waiting) {
    if buffer.is_empty() {
        out.put_byte(b'\n');
    }
    out.put_line(
        buffer,
        |i, x, behind, out| put_float_or(*x, nan_at(i, start, end), behind, out),
    );
}

fn put_refusal(cause: Refusal, out: &mut Waiting) {
    out.put_word(b"refusal ");
    out.put_decimal(u64::from(cause.number()), b'\n');
}

// A way's words. Stays: bytes for `Waiting`, which cannot fail; a `Display` may answer an error, and would stand in draw_spec, which has no
// code.
fn put_way(way: Way, out: &mut Waiting) {
    match way {
        Way::AsDrawn => out.put_word(b"as drawn"),
        Way::Chord => out.put_word(b"chord for want of a range"),
        Way::Complement => out.put_word(b"complement"),
        Way::ShortArc => out.put_word(b"short arc"),
        Way::Runaway => out.put_word(b"runaway chord"),
    }
}

// The line of what drawing answers.
fn put_drawn(drawn: Result<Drawn, Refusal>, out: &mut Waiting) {
    match drawn {
        Ok(chain) => {
            out.put_word(b"way ");
            put_way(chain.way, out);
            out.put_word(b" points ");
            out.put_decimal(chain.count as u64, b'\n');
        }
        Err(cause) => put_refusal(cause, out),
    }
}

// The answer of drawing and every float of both buffers: what a listing leaves out. A chord for want of a range is in the first, its
// parameters lo and hi; a runaway chord in the second, with lo twice.
fn put_both(text: &[u8], mode: Mode, first: &mut [f64], second: &mut [f64], out: &mut Waiting) {
    let mut tables = SheetTables::new();
    match tables.read(text) {
        Ok(sheet) => {
            first.fill(BEFORE);
            second.fill(BEFORE);
            let drawn = chain_answer::draw_sheet(&tables, &sheet, mode, first, second);
            put_drawn(drawn, out);
            put_floats(first, sheet.lo, sheet.hi, out);
            put_floats(second, sheet.lo, sheet.lo, out);
        }
        Err(cause) => put_refusal(cause, out),
    }
}

// Writes the answer to a sheet, drawn in these buffers. Stays: which answer is asked for is a line of the input, and the answers share no text.
fn write_answer(
    to: Stdout,
    text: &[u8],
    first: &mut [f64],
    second: &mut [f64],
    out: &mut [u8],
    mode: Mode,
    both: bool,
)
    requires { refusal_bytes + line_bytes * most ≤ length out.old }
{
    if both {
        let mut waiting = Waiting::new(to);
        put_both(text, mode, first, second, &mut waiting);
        waiting.flush();
        return;
    }
    let written = chain_answer::answer_in_mode(text, mode, first, second, out);
    let _ = to.write_all(&out[..written]);
}

// Writes the answer to a sheet, drawn in the first floats of both buffers.
fn write_sheet(
    to: Stdout,
    text: &[u8],
    first: &mut [f64],
    second: &mut [f64],
    out: &mut [u8],
    settings: Settings,
)
    requires { (width * most ≤ length first.old) × (width * most ≤ length second.old) × (refusal_bytes + line_bytes * most ≤ length out.old) }
{
    let n = settings.first.min(FLOATS);
    let m = settings.second.min(FLOATS);
    write_answer(
        to,
        text,
        &mut first[..n],
        &mut second[..m],
        out,
        settings.mode,
        settings.both,
    );
}

// All of the input, part by part; its end ends the last. The loop counts its turns, up to a number that no run reaches, since
// nothing says that an input ends.
fn main(rt: HostRuntime) {
    let to = rt.stdout();
    let mut parts = Parts::<SIZE>::new(rt.stdin(), false);
    let mut first = [0.0f64; FLOATS];
    let mut second = [0.0f64; FLOATS];
    let mut out = [0u8; BYTES];
    let mut settings = Settings {
        first: chain_answer::FLOATS,
        second: chain_answer::FLOATS,
        mode: Mode::Reference,
        both: false,
    };
    for _ in 0..u64::MAX {
        let ended = parts.read_part();
        match set(parts.text(), settings) {
            Some(next) => settings = next,
            None => write_sheet(
                to,
                parts.text(),
                &mut first,
                &mut second,
                &mut out,
                settings,
            ),
        }
        if !ended {
            break;
        }
        let _ = to.write_all(b"====\n");
    }
}
