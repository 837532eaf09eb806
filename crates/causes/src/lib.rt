#![tactic(auto)]
// When an edge is turned away: causes 1 to 6, in order, the lowest that applies. Every row and segment is looked at.
ghost use Rattle.std.specs.Prelude.{◌≡◌};
ghost use Rattle.brep.specs.Rows.{lent};
ghost use Rattle.causes.specs.Own.Lowest.{lowest_of};
ghost use Rattle.causes.specs.Causes.{oversize, missing_from, verdict, tables_verdict, edge_verdict};

use brep::{Edge, LentTables};
use options::Options;
use refusal::Refusal;

// The slices of the largest tables: points in threes, rows in threes and pairs, segments in pairs.
const POINT_THREES: usize = 3 * brep::MOST_POINTS;

const ROW_THREES: usize = 3 * brep::MOST_ROWS;

const ROW_PAIRS: usize = 2 * brep::MOST_ROWS;

const SEGMENT_PAIRS: usize = 2 * brep::MOST_SEGMENTS;

// Cause 1. The rows that are left bound how deep an evaluation goes, whatever they hold: every reference that is followed falls.
#[tactic(auto, unfolding(crate::specs::Causes::oversize))]
pub fn oversize(tables: &LentTables<'_>) -> bool
    ensures { result ≡ oversize (lent tables.now) }
{
    POINT_THREES < tables.points.len()
        || ROW_THREES < tables.curves.len()
        || ROW_PAIRS < tables.reals.len()
        || SEGMENT_PAIRS < tables.parts.len()
        || SEGMENT_PAIRS < tables.ranges.len()
}

// Cause 6, over so many points and rows.
fn missing(points: usize, rows: usize, edge: Edge) -> bool
    ensures { result ≡ missing_from points rows edge }
{
    rows <= edge.curve as usize
        || points <= edge.start as usize
        || points <= edge.end as usize
        || points <= edge.low as usize
        || points <= edge.high as usize
}

// The lowest of the causes 1 to 5 that the tables alone have: for many edges over the same tables, once. One pass over each
// slice of floats for cause 2, one over the segments for 3, and one over the rows, with their runs, for 3, 4 and 5.
#[tactic(auto, unfolding(crate::specs::Causes::tables_verdict))]
pub fn check_tables(tables: &LentTables<'_>) -> Result<(), Refusal>
    ensures { result ≡ tables_verdict (lent tables.now) }
{
    if oversize(tables) {
        return Err(Refusal::Oversize);
    }
    if causes_bounds::unbounded_tables(tables.points, tables.reals, tables.ranges) {
        return Err(Refusal::Unbounded);
    }
    if causes_form::ragged(tables)
        || causes_form::malformed_segments(tables.parts, tables.curves.len() / 3)
    {
        return Err(Refusal::IllFormed);
    }
    causes_nesting::rows_cause(tables)
}

// The lowest of the causes 2, 3 and 6 that the edge and the options have. No table is gone through. Stays: a struct of tables, edge and options
// would be made for this call and taken apart in each test, which looks at two of the three.
#[tactic(auto, unfolding(crate::specs::Causes::edge_verdict, crate::specs::Causes::missing))]
pub fn check_over(tables: &LentTables<'_>, edge: Edge, options: Options) -> Result<(), Refusal>
    ensures { result ≡ edge_verdict (lent tables.now) edge options }
{
    if causes_bounds::unbounded_edge(edge, options) {
        return Err(Refusal::Unbounded);
    }
    if causes_form::ill_formed_edge(edge, options) {
        return Err(Refusal::IllFormed);
    }
    if missing(tables.points.len() / 3, tables.curves.len() / 3, edge) {
        return Err(Refusal::Missing);
    }
    Ok(())
}

// The lower refusal of two; accepted where both are.
#[tactic(auto, using(crate::proofs::Apart::min_is_lower), unfolding(crate::specs::Own::Lowest::lowest_of))]
fn lower(a: Result<(), Refusal>, b: Result<(), Refusal>) -> Result<(), Refusal>
    ensures { result ≡ lowest_of a b }
{
    match (a, b) {
        (Err(m), Err(n)) => Err(m.min(n)),
        _ => a.and(b),
    }
}

// The lowest of the causes 1 to 6 that applies, for any slices of any length.
pub fn check(tables: &LentTables<'_>, edge: Edge, options: Options) -> Result<(), Refusal>
    ensures { result ≡ verdict (lent tables.now) edge options }
{
    lower(check_tables(tables), check_over(tables, edge, options))
}
