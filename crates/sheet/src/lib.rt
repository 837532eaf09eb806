#![tactic(auto)]
// THE reader of a sheet: the layout is Rattle.sheet_layout.specs.Layout, and what is read of it specs/Sheet.antt.
ghost use Rattle.std.specs.Prelude.{◌≡◌, IfOk};
ghost use Rattle.std.specs.Option.{ok_or};
ghost use Rattle.brep.specs.Rows.{lent};
ghost use Rattle.sheet_layout.specs.Layout.{tables_format, read_sheet, Means};
ghost use Rattle.sheet_edge.specs.Own.Answers.{parsed_as};
ghost use Rattle.sheet.specs.Sheet.{edge_from, options_from, answer, FitsTables, no_tables, stored, leading, tables_after, written};
ghost use Rattle.sheet.specs.Own.Answers.{counts_of, TablesStored, SheetStored};

use brep::{Edge, LentTables};
use math::Interval;
use options::{Angle, Options};
use refusal::Refusal;
use sheet_row::{RawEdge, RawOptions, float_of};
use sheet_tables::SheetText;

// Room in each table for every sheet's rows. The points: x y z.
pub const POINTS: usize = 3 * sheet_layout::SHEET_POINTS;

// The curves' whole numbers: kind first count.
pub const CURVES: usize = 3 * sheet_layout::SHEET_CURVES;

// The curves' floats: p q.
pub const REALS: usize = 2 * sheet_layout::SHEET_CURVES;

// The segments' whole numbers: curve sense.
pub const PARTS: usize = 2 * sheet_layout::SHEET_SEGMENTS;

// The segments' floats: lo hi.
pub const RANGES: usize = 2 * sheet_layout::SHEET_SEGMENTS;

// A sheet: how many rows its tables hold, its edge, its options, and the edge's lo and hi by their own 64 bits, since
// the floats keep no NaN's bits. Stays: the counts are the sheet's, as its edge is; the tables are the room that it is read into.
#[derive(Clone, Copy)]
pub struct Sheet {
    pub points: usize,
    pub curves: usize,
    pub segments: usize,
    pub edge: Edge,
    pub options: Options,
    pub lo: u64,
    pub hi: u64,
}

// The tables that a sheet is read into: its rows, and zeros behind them.
#[derive(Drop)]
pub struct SheetTables {
    pub points: [f64; POINTS],
    pub curves: [u32; CURVES],
    pub reals: [f64; REALS],
    pub parts: [u32; PARTS],
    pub ranges: [f64; RANGES],
}

// The edge of its numbers. Stays: no `From`, since both types are of other crates, and sheet_row, which could hold it, knows neither brep nor
// options.
fn edge_from(raw: RawEdge) -> Edge
    ensures { result ≡ edge_from raw }
{
    Edge {
        curve: raw.curve,
        start: raw.start,
        end: raw.end,
        sense: raw.sense,
        range: Interval {
            lo: float_of(raw.lo),
            hi: float_of(raw.hi),
        },
        tolerance: float_of(raw.tolerance),
        low: raw.low,
        high: raw.high,
    }
}

// The options of their numbers, the angle in radians. Stays: no `From`, as above.
pub fn options_from(raw: RawOptions) -> Options
    ensures { result ≡ options_from raw }
{
    Options {
        deflection: float_of(raw.deflection),
        angle: Angle::radians(float_of(raw.angle)),
        relative: raw.relative,
        segments: raw.segments,
        depth: raw.depth,
        scale: float_of(raw.scale),
    }
}

impl SheetTables {
    // No rows. Stays: no `Default` beside it, which would be a second name for it.
    #[inline]
    pub fn new() -> SheetTables
        ensures { written result ≡ stored no_tables }
    {
        SheetTables {
            points: [0.0; POINTS],
            curves: [0; CURVES],
            reals: [0.0; REALS],
            parts: [0; PARTS],
            ranges: [0.0; RANGES],
        }
    }

    // Zeros in all tables. Stays: in place, since by `*self = SheetTables::new()`, which was tried, a second set of tables, 118 kB, is made on the
    // stack first.
    fn clear(&mut self)
        ensures { written self.new ≡ stored no_tables }
    {
        base_lists::fill_from(&mut self.points, 0, 0.0);
        base_lists::fill_from(&mut self.curves, 0, 0);
        base_lists::fill_from(&mut self.reals, 0, 0.0);
        base_lists::fill_from(&mut self.parts, 0, 0);
        base_lists::fill_from(&mut self.ranges, 0, 0.0);
    }

    // The three tables, from the text's start on: how many rows each has, and what is left of the text.
    fn read_tables<'a>(
        &mut self,
        text: SheetText<'a>,
    ) -> Option<((usize, usize, usize), SheetText<'a>)>
        ensures counts { result ≡ parsed_as counts_of (tables_format.read text.entry) }
        ensures tables { TablesStored (tables_format.read text.entry) (written self.new) }
    {
        let (points, rest) = sheet_tables::points(text, &mut self.points)?;
        let (curves, rest) = sheet_tables::curves(rest, &mut self.curves, &mut self.reals)?;
        let (segments, rest) = sheet_tables::segments(rest, &mut self.parts, &mut self.ranges)?;
        Some(((points, curves, segments), rest))
    }

    // The sheet, its numbers in the tables. Where there is none, some may have been read: they are for the caller to clear.
    fn try_read(&mut self, text: &[u8]) -> Option<Sheet>
        ensures sheet { ok_or result Refusal.NoSheet ≡ answer (read_sheet text.now) }
        ensures tables { SheetStored (read_sheet text.now) (written self.new) }
    {
        if sheet_layout::SIZE < text.len() {
            return None;
        }
        let ((points, curves, segments), rest) = self.read_tables(SheetText::new(text))?;
        let ((edge, options), rest) = sheet_edge::ends(rest.into_bytes())?;
        if !rest.is_empty() {
            return None;
        }
        Some(Sheet {
            points,
            curves,
            segments,
            edge: edge_from(edge),
            options: options_from(options),
            lo: edge.lo,
            hi: edge.hi,
        })
    }

    // The sheet that the text stands for: its numbers in the tables, zeros behind them. Zeros alone, where it stands for none.
    #[tactic(auto, using(sheet_layout::proofs::Laws::means, crate::proofs::Laws::answer_fits))]
    pub fn read(&mut self, text: &[u8]) -> Result<Sheet, Refusal>
        ensures sheet { result ≡ answer (read_sheet text.now) }
        ensures tables { written self.new ≡ tables_after (read_sheet text.now) }
        ensures rows { IfOk result FitsTables }
        ensures means { Means text.now (read_sheet text.now) }
    {
        let sheet = self.try_read(text).ok_or(Refusal::NoSheet);
        if sheet.is_err() {
            self.clear();
        }
        sheet
    }

    // The rows of a sheet that was read.
    pub fn rows(&self, sheet: &Sheet) -> LentTables<'_>
        requires { FitsTables sheet.now }
        ensures { lent result ≡ leading sheet.now.points sheet.now.curves sheet.now.segments (written self.now) }
    {
        LentTables {
            points: &self.points[..3 * sheet.points],
            curves: &self.curves[..3 * sheet.curves],
            reals: &self.reals[..2 * sheet.curves],
            parts: &self.parts[..2 * sheet.segments],
            ranges: &self.ranges[..2 * sheet.segments],
        }
    }
}
