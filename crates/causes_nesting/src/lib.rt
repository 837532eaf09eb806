#![tactic(auto)]
// Causes 3, 4 and 5 of the curve rows, in one pass from the lowest row up. A table has the depth of each row gone by, so that
// no reference is followed down. Composites may share runs: what is known of the depths of blocks of segments, of 16 and of 256,
// is kept, so that a block is worked out once; besides, a run takes at most 30 segments and 44 blocks.
ghost use Rattle.std.specs.Prelude.{◌≡◌, ℕ, ◌+◌, ◌*◌, ◌/◌, ◌<◌, ◌≤◌, length};
ghost use Rattle.brep.specs.Rows.{most_rows, most_segments, lent};
ghost use Rattle.causes_nesting.specs.Own.RowsCause.{rows_cause};
ghost use Rattle.causes_nesting.specs.Own.Depths.{Seen, segments_seen, depth_below, TellsRun, one_deeper, row_depth, RunFits, passed, IsStart, Known, cause_with};

use brep::{Kind, LentTables, Run};
use refusal::Refusal;

// Of the numbers for depths, 0 to 8 are nestings, this stands for every deeper one, and the next for a reference that is not to a
// lower row. Stays: as an ordered enum depths miss the speed of numbers: 4,095 composites over one run take 6.6 million instructions, not 5.9.
const TOO_DEEP: u8 = 9;

const UNORDERED: u8 = 10;

// What tells the depths of rows and of runs of segments, by those of the rows gone by.
trait Depths: Drop {
    // What they are told from.
    ghost seen: { Self → Seen };

    // Of row number base, seen from the row that is come to: UNORDERED where it is not a lower one.
    fn of_row(&self, base: u32) -> u8
        ensures { result ≡ depth_below (seen self.now) base };

    // The largest of the segments from number from on, before number to; 0 where there is none.
    fn of_run(&mut self, from: u32, to: u32) -> u8
        requires { to ≤ segments_seen (seen self.old) }
        ensures { TellsRun (seen self.old) (seen self.new) from to result };

    // Goes on to the next row, past one of this depth.
    fn pass(&mut self, depth: u8)
        requires { (seen self.old).row < length (seen self.old).rows }
        ensures { seen self.new ≡ passed (seen self.old) depth };

    // No table has more segments.
    ghost few: { (s : Self) → segments_seen (seen s) ≤ most_segments };
}

// The segments, each of them told by the row of its curve.
#[derive(Drop)]
struct Segments<'a> {
    parts: &'a [u32],
    rows: &'a mut [u8],
    row: u32,
    ghost few_segments: { length parts.now / 2 ≤ most_segments },
    ghost few_rows: { length rows.now ≤ most_rows },
    ghost in_table: { row ≤ length rows.now },
}

impl Depths for Segments<'_> {
    ghost seen = { λ s. record { parts = s.parts.now; rows = s.rows.now; row = s.row } };

    ghost few = { λ s. s.few_segments };

    #[tactic(auto, unfolding(crate::specs::Own::Depths::depth_below))]
    fn of_row(&self, base: u32) -> u8 {
        if base < self.row {
            self.rows[base as usize]
        } else {
            UNORDERED
        }
    }

    // Stays: by number, since a run from behind its end has no segments: a slice from there would need a clause that no other instance needs.
    fn of_run(&mut self, from: u32, to: u32) -> u8 {
        let mut depth: u8 = 0;
        for i in from..to {
            depth = depth.max(self.of_row(self.parts[i as usize * 2]));
        }
        depth
    }

    fn pass(&mut self, depth: u8) {
        self.rows[self.row as usize] = depth;
        self.row += 1;
    }
}

// Blocks of so many segments each, over what tells those: the depth of a block is kept once it is known.
#[derive(Drop)]
struct Blocks<'a, D, const SIZE: u32>
where
    D: Depths,
{
    below: D,
    kept: &'a mut [Option<u8>],
    ghost not_empty: { 0 < SIZE },
    ghost known: { Known SIZE (D.seen below) kept.now },
    ghost enough: { (b : ℕ) → (b + 1) * SIZE ≤ segments_seen (D.seen below) → b < length kept.now },
}

impl<D: Depths, const SIZE: u32> Blocks<'_, D, SIZE> {
    // Of block number b. One out of order is not kept; but after the row that finds it no depth is asked for.
    fn of_block(&mut self, b: u32) -> u8
        requires { (b + 1) * SIZE ≤ segments_seen (D.seen self.old.below) }
        ensures { TellsRun (D.seen self.old.below) (D.seen self.new.below) (b * SIZE) ((b + 1) * SIZE) result }
    {
        if let Some(depth) = self.kept[b as usize] {
            return depth;
        }
        let depth = self.below.of_run(b * SIZE, (b + 1) * SIZE);
        if depth < UNORDERED {
            self.kept[b as usize] = Some(depth);
        }
        depth
    }

    // Of whole blocks, from number start on, before number end.
    fn of_blocks(&mut self, start: u32, end: u32) -> u8
        requires { end * SIZE ≤ segments_seen (D.seen self.old.below) }
        ensures { TellsRun (D.seen self.old.below) (D.seen self.new.below) (start * SIZE) (end * SIZE) result }
    {
        let mut depth: u8 = 0;
        for b in start..end {
            depth = depth.max(self.of_block(b));
        }
        depth
    }

    // Of an end of a run, where there is one: to ask what is below for nothing costs as much as a block.
    fn of_rest(&mut self, from: u32, to: u32) -> u8
        requires { to ≤ segments_seen (D.seen self.old.below) }
        ensures { TellsRun (D.seen self.old.below) (D.seen self.new.below) from to result }
    {
        if from < to {
            self.below.of_run(from, to)
        } else {
            0
        }
    }
}

impl<D: Depths, const SIZE: u32> Depths for Blocks<'_, D, SIZE> {
    ghost seen = { λ s. D.seen s.below };

    ghost few = { λ s. D.few s.below };

    fn of_row(&self, base: u32) -> u8 {
        self.below.of_row(base)
    }

    fn of_run(&mut self, from: u32, to: u32) -> u8 {
        let start = from.div_ceil(SIZE);
        let end = to / SIZE;
        if end <= start {
            return self.below.of_run(from, to);
        }
        let front = self.of_rest(from, start * SIZE);
        let blocks = self.of_blocks(start, end);
        let back = self.of_rest(end * SIZE, to);
        front.max(blocks).max(back)
    }

    fn pass(&mut self, depth: u8) {
        self.below.pass(depth);
    }
}

#[tactic(auto, unfolding(crate::specs::Own::Depths::one_deeper))]
fn one_deeper(depth: u8) -> u8
    ensures { result ≡ one_deeper depth }
{
    if depth < TOO_DEEP { depth + 1 } else { depth }
}

// Of a run. Of one without segments nothing is asked: on the way down to those it would be parted into blocks all the same.
fn run_depth<D: Depths>(depths: &mut D, run: Run) -> u8
    requires { run.first + run.count ≤ segments_seen (D.seen depths.old) }
    ensures { TellsRun (D.seen depths.old) (D.seen depths.new) run.first (run.first + run.count) result }
{
    if run.count == 0 {
        return 0;
    }
    depths.of_run(run.first, run.first + run.count)
}

// Of a row, by the rows below it.
#[tactic(auto, unfolding(crate::specs::Own::Depths::depth_as))]
fn row_depth<D: Depths>(depths: &mut D, curves: &[u32], row: u32) -> u8
    requires { RunFits curves.now (D.seen depths.old) row }
    ensures value { result ≡ row_depth curves.now (D.seen depths.old) row }
    ensures same { D.seen depths.new ≡ D.seen depths.old }
{
    let run = brep::run_at(curves, row);
    match brep::kind_at(curves, row) {
        Some(Kind::Trimmed) => one_deeper(depths.of_row(run.first)),
        Some(Kind::Composite) => one_deeper(run_depth(depths, run)),
        _ => 0,
    }
}

// The lowest cause so far, after a row of this depth.
#[tactic(auto, unfolding(crate::specs::Own::Depths::cause_with))]
fn cause_with(lowest: Result<(), Refusal>, depth: u8) -> Result<(), Refusal>
    ensures { result ≡ cause_with lowest depth }
{
    match depth {
        UNORDERED => Err(Refusal::Unordered),
        TOO_DEEP => Err(Refusal::TooDeep),
        _ => lowest,
    }
}

// Past a row out of order only the form is looked at: no other cause that a row can have is lower.
fn rows_cause_in<D: Depths>(tables: &LentTables<'_>, depths: &mut D) -> Result<(), Refusal>
    requires few { length tables.now.curves.now / 3 ≤ most_rows }
    requires start { IsStart tables.now.parts.now (length tables.now.curves.now / 3) (D.seen depths.old) }
    ensures { result ≡ rows_cause (lent tables.now) }
{
    let mut lowest = Ok(());
    for row in 0..(tables.curves.len() / 3) as u32 {
        if causes_form::malformed_row(tables, row as usize) {
            return Err(Refusal::IllFormed);
        }
        if lowest != Err(Refusal::Unordered) {
            let depth = row_depth(depths, tables.curves, row);
            depths.pass(depth);
            lowest = cause_with(lowest, depth);
        }
    }
    lowest
}

// The lowest of the causes 3, 4 and 5 that a row has. Stays: arrays, since there is no heap; and two sizes of them, since they are cleared at each
// call and small tables need little.
pub fn rows_cause(tables: &LentTables<'_>) -> Result<(), Refusal>
    requires { (length tables.now.curves.now / 3 ≤ most_rows) × (length tables.now.parts.now / 2 ≤ most_segments) }
    ensures { result ≡ rows_cause (lent tables.now) }
{
    let parts = tables.parts;
    if tables.curves.len() / 3 <= 32 && parts.len() / 2 <= 64 {
        let mut rows = [0u8; 32];
        let mut kept = [None; 4];
        let segments = Segments {
            parts,
            rows: &mut rows,
            row: 0,
        };
        let mut blocks = Blocks::<_, 16> {
            below: segments,
            kept: &mut kept,
        };
        return rows_cause_in(tables, &mut blocks);
    }
    let mut rows = [0u8; brep::MOST_ROWS];
    let mut kept = [None; 256];
    let mut larger_kept = [None; 16];
    let segments = Segments {
        parts,
        rows: &mut rows,
        row: 0,
    };
    let blocks = Blocks::<_, 16> {
        below: segments,
        kept: &mut kept,
    };
    let mut larger = Blocks::<_, 256> {
        below: blocks,
        kept: &mut larger_kept,
    };
    rows_cause_in(tables, &mut larger)
}
