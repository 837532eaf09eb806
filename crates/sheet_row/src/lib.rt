#![tactic(auto)]
// A line's numbers, as they go into the sheet's tables: floats into one, whole numbers into another, the edge and the options by name.
ghost use Rattle.std.specs.Prelude.{◌≡◌, Bool, not, [], ◌∷◌, map, ℕ, ◌+◌, ◌^◌, ◌≤◌, ◌<◌, length};
ghost use Rattle.std.proofs.lemmas.List.Edits.{sets};
ghost use Rattle.std.specs.Float.{binary64};
ghost use Rattle.std.specs.Float.Ieee.{of_bits};
ghost use Rattle.base_lists.specs.All.{All};
ghost use Rattle.text_format.specs.Table.{Field};
ghost use Rattle.sheet_layout.specs.Own.Columns.{field_of, shape_of};
ghost use Rattle.sheet_row.specs.Own.Narrow.{Narrow};
ghost use Rattle.sheet_row.specs.Rows.{is_float, chosen, floats_of, wholes_of, raw_edge_of, raw_options_of};

use sheet_layout::Column;
use std::num::f64_from_bits_with_nan;

// The edge of a sheet; lo, hi and tolerance by their 64 bits. Stays: beside `brep::Edge`, whose floats keep no NaN's bits.
#[derive(Clone, Copy)]
pub struct RawEdge {
    pub curve: u32,
    pub start: u32,
    pub end: u32,
    pub sense: u32,
    pub lo: u64,
    pub hi: u64,
    pub tolerance: u64,
    pub low: u32,
    pub high: u32,
}

// The options of a sheet; deflection, angle and scale by their 64 bits. Stays: beside `options::Options`, as above.
#[derive(Clone, Copy)]
pub struct RawOptions {
    pub deflection: u64,
    pub angle: u64,
    pub relative: u32,
    pub segments: u64,
    pub depth: u32,
    pub scale: u64,
}

// The float of 64 bits. A NaN's pattern makes a NaN.
pub fn float_of(pattern: u64) -> f64
    ensures { result ≡ of_bits binary64 pattern }
{
    f64_from_bits_with_nan(pattern)
}

// What a table holds of a row: an element for each number of those columns that are the table's.
trait Element: Copy {
    // the columns that are the table's
    ghost holds: { Field → Bool };

    // the numbers that there is an element for
    ghost fits: { ℕ → Type 0 };

    // the element of a number
    ghost value: { ℕ → Self };

    fn is_of(column: Column) -> bool
        ensures { result ≡ holds (field_of column) };

    fn from_number(n: u64) -> Self
        requires { fits n }
        ensures { result ≡ value n };
}

impl Element for f64 {
    ghost holds = { is_float };

    ghost fits = { λ _. Unit {0} };

    ghost value = { of_bits binary64 };

    #[tactic(auto, unfolding(crate::specs::Rows::is_float))]
    fn is_of(column: Column) -> bool {
        column == Column::Float
    }

    fn from_number(n: u64) -> f64 {
        float_of(n)
    }
}

impl Element for u32 {
    ghost holds = { λ f. not (is_float f) };

    ghost fits = { λ n. n < 2 ^ 32 };

    ghost value = { λ n. n };

    #[tactic(auto, unfolding(crate::specs::Rows::is_float))]
    fn is_of(column: Column) -> bool {
        column != Column::Float
    }

    fn from_number(n: u64) -> u32 {
        n as u32
    }
}

// A row's elements into their table, from `at` on; answers the next place. Stays: what is left of the table, as a slice, would lose the rows
// written, of which the clause speaks.
fn put<T: Element>(shape: &[Column], row: &[u64], out: &mut [T], at: usize) -> usize
    requires room { at + length (chosen T.holds (shape_of shape.now) row.now) ≤ length out.old }
    requires fit { All T.fits (chosen T.holds (shape_of shape.now) row.now) }
    ensures place { result ≡ at + length (chosen T.holds (shape_of shape.now) row.now) }
    ensures written { out.new ≡ sets out.old at (map T.value (chosen T.holds (shape_of shape.now) row.now)) }
{
    // goes on at the table's columns alone
    let mut k = at;
    for (column, n) in shape.iter().zip(row) {
        if T::is_of(*column) {
            out[k] = T::from_number(*n);
            k += 1;
        }
    }
    k
}

// A row's floats into their table, from `at` on; answers the next place. Stays: as `put`.
#[tactic(auto, using(crate::proofs::Chosen::any_fit))]
pub fn put_floats(shape: &[Column], row: &[u64], out: &mut [f64], at: usize) -> usize
    requires { at + length (floats_of (shape_of shape.now) row.now) ≤ length out.old }
    ensures { (result ≡ at + length (floats_of (shape_of shape.now) row.now))
        × (out.new ≡ sets out.old at (floats_of (shape_of shape.now) row.now)) }
{
    put(shape, row, out, at)
}

// A row's whole numbers into their table, from `at` on; answers the next place. Stays: as `put`.
pub fn put_wholes(shape: &[Column], row: &[u64], out: &mut [u32], at: usize) -> usize
    requires { (at + length (wholes_of (shape_of shape.now) row.now) ≤ length out.old)
        × All (λ n. n < 2 ^ 32) (wholes_of (shape_of shape.now) row.now) }
    ensures { (result ≡ at + length (wholes_of (shape_of shape.now) row.now))
        × (out.new ≡ sets out.old at (wholes_of (shape_of shape.now) row.now)) }
{
    put(shape, row, out, at)
}

// The edge of its line's numbers. Stays: no `From`, which asks nothing, while some numbers must have 32 bits.
pub fn raw_edge_of(row: &[u64; 9]) -> RawEdge
    requires { Narrow row.now (0 ∷ 1 ∷ 2 ∷ 3 ∷ 7 ∷ 8 ∷ []) }
    ensures { result ≡ raw_edge_of row.now }
{
    RawEdge {
        curve: row[0] as u32,
        start: row[1] as u32,
        end: row[2] as u32,
        sense: row[3] as u32,
        lo: row[4],
        hi: row[5],
        tolerance: row[6],
        low: row[7] as u32,
        high: row[8] as u32,
    }
}

// The options of their line's numbers. Stays: no `From`, as above.
pub fn raw_options_of(row: &[u64; 9]) -> RawOptions
    requires { Narrow row.now (2 ∷ 4 ∷ []) }
    ensures { result ≡ raw_options_of row.now }
{
    RawOptions {
        deflection: row[0],
        angle: row[1],
        relative: row[2] as u32,
        segments: row[3],
        depth: row[4] as u32,
        scale: row[5],
    }
}
