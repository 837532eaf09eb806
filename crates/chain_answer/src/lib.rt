#![tactic(auto)]
// The answer to a sheet: its text in, the listing of its edge's chain or of a refusal out.
ghost use Rattle.std.specs.Prelude.{◌≡◌, List, ℕ, ◌+◌, ◌*◌, ◌<◌, ◌≤◌, length, take};
ghost use Rattle.options.specs.declared.Mode.TheVariants.{Reference};
ghost use Rattle.sheet_layout.specs.Layout.{size};
ghost use Rattle.sheet.specs.Sheet.{FitsTables, leading, written};
ghost use Rattle.draw_spec.specs.Draw.{room_of, chain_in, program_floats, chain_floats, Outcome};
ghost use Rattle.text_listing.specs.Listing.{float_bytes, line_bytes, refusal_bytes, Put};
ghost use Rattle.chain_answer.specs.Own.Shown.{shown};
ghost use Rattle.chain_answer.specs.Printed.{last_bits, Prints, program_prints};

use draw_spec::{Drawn, Way};
use options::Mode;
use refusal::Refusal;
use sheet::{Sheet, SheetTables};

// The most bytes that the program reads of its input: one more than a sheet may have, so that an input that is too long shows.
pub const READ: usize = sheet_layout::SIZE + 1;

// The records of each chain buffer of the program.
const POINTS: usize = 2048;

// The floats of each chain buffer of the program.
pub const FLOATS: usize = edge_record::WIDTH * POINTS;

// Room for every listing of the program: the floats' bytes, and those of a refusal, which are more than the names'.
pub const BYTES: usize = text_listing::REFUSAL_BYTES + text_listing::FLOAT_BYTES * FLOATS;

// The bits that a chain's last parameter was copied from if it is NaN, where the edge's range has the bits `lo` and `hi`.
fn last_bits(way: Way, lo: u64, hi: u64) -> u64
    ensures { result ≡ last_bits way lo hi }
{
    if matches!(way, Way::Runaway) { lo } else { hi }
}

// The listing of an answer, whose chain lies in the first buffer or in the second. `lo` and `hi` are the bits of the edge's
// range: a NaN parameter is a copy of one of them. Stays: buffers and bits one by one, as `chain_of` and `write_chain` take them.
fn show(
    drawn: Result<Drawn, Refusal>,
    first: &[f64],
    second: &[f64],
    lo: u64,
    hi: u64,
    out: &mut [u8],
) -> usize
    requires { (chain_floats drawn ≤ length first.now) × (chain_floats drawn ≤ length second.now) × (refusal_bytes + float_bytes * chain_floats drawn ≤ length out.old) }
    ensures { Put (shown lo hi drawn (chain_in first.now second.now drawn)) out.old result out.new }
{
    match drawn {
        Ok(chain) => text_listing::write_chain(
            draw_handed::chain_of(drawn, first, second),
            lo,
            last_bits(chain.way, lo, hi),
            out,
        ),
        Err(cause) => text_listing::write_refusal(cause.number(), out),
    }
}

// Draws the edge of a sheet that was read into these tables, in a mode, which no sheet names. Stays: mode and buffers, as the entry point takes
// them.
pub fn draw_sheet(
    tables: &SheetTables,
    sheet: &Sheet,
    mode: Mode,
    first: &mut [f64],
    second: &mut [f64],
) -> Result<Drawn, Refusal>
    requires { FitsTables sheet.now }
    ensures { Outcome mode (leading sheet.now.points sheet.now.curves sheet.now.segments (written tables.now)) sheet.now.edge sheet.now.options first.old second.old result first.new second.new }
{
    draw::draw_in_mode(
        &tables.rows(sheet),
        sheet.edge,
        sheet.options,
        mode,
        first,
        second,
    )
}

// The answer to a sheet in a mode: the bytes of its listing, at the start of `out`, and how many they are. Stays: a struct of the four would be
// made twice, here and in replay_chain; a count and not the part, since `Prints` also says what is behind it.
pub fn answer_in_mode(
    text: &[u8],
    mode: Mode,
    first: &mut [f64],
    second: &mut [f64],
    out: &mut [u8],
) -> usize
    requires { refusal_bytes + line_bytes * room_of (length first.old) (length second.old) ≤ length out.old }
    ensures { Prints mode text.now first.old second.old out.old result first.new second.new out.new }
{
    let mut tables = SheetTables::new();
    match tables.read(text) {
        Ok(sheet) => {
            let drawn = draw_sheet(&tables, &sheet, mode, first, second);
            show(drawn, first, second, sheet.lo, sheet.hi, out)
        }
        Err(cause) => text_listing::write_refusal(cause.number(), out),
    }
}

// THE ANSWER to a sheet: the bytes that the program prints, which knows no mode but the one that is equal to the Rust. Stays: as `answer_in_mode`.
pub fn answer(text: &[u8], first: &mut [f64], second: &mut [f64], out: &mut [u8]) -> usize
    requires { refusal_bytes + line_bytes * room_of (length first.old) (length second.old) ≤ length out.old }
    ensures { Prints Reference text.now first.old second.old out.old result first.new second.new out.new }
{
    answer_in_mode(text, Mode::Reference, first, second, out)
}

// WHAT THE PROGRAM PRINTS for an input, and how many bytes: the answer, in chain buffers of `FLOATS` floats. The first n bytes
// of `text` are what was read of the input: all of it, or as much as `text` has room for. Stays: the n bytes alone would not say whether the
// input was cut; the clause compares n with the room.
pub fn print(text: &[u8], n: usize, out: &mut [u8]) -> usize
    requires { (size < length text.now) × (n ≤ length text.now) × (refusal_bytes + float_bytes * program_floats ≤ length out.old) }
    ensures { (result ≤ length out.new)
        × ((input : List ℕ) → take n text.now ≡ take (length text.now) input
        → Put (program_prints input) out.old result out.new) }
{
    let mut first = [0.0f64; FLOATS];
    let mut second = [0.0f64; FLOATS];
    answer(&text[..n], &mut first, &mut second, out)
}
