#![tactic(auto)]
// An edge to be drawn: what is known of it before it is sampled, worked out once.
ghost use Rattle.std.specs.Prelude.{◌≡◌, ◌<◌, ◌≤◌, length};
ghost use Rattle.brep.specs.Rows.{lent};
ghost use Rattle.brep.specs.Tree.{tree};
ghost use Rattle.knots_sort.specs.Own.Sortable.{most_knots};
ghost use Rattle.knots.specs.Knots.{curve_knots};
ghost use Rattle.edge_range.specs.Usable.{usable_range};
ghost use Rattle.edge_drawing.specs.Range.{with_range};

use brep::{Edge, LentTables};
use math::Interval;
use options::{Mode, Resolved};

// An edge over its tables, whose curve has no more knots than can be sorted, with its usable range, and the mode that it is drawn in.
#[derive(Clone, Copy)]
pub struct Drawing<'a> {
    pub tables: &'a LentTables<'a>,
    pub edge: Edge,
    pub mode: Mode,
    pub usable: Option<Interval>,
    ghost sortable: { length (curve_knots (tree (lent tables.now) edge.curve)) ≤ most_knots },
    ghost own: { usable ≡ usable_range (tree (lent tables.now) edge.curve) edge.range },
}

impl<'a> Drawing<'a> {
    // The edge over its tables, in a mode; its usable range is worked out.
    pub fn new(tables: &'a LentTables<'a>, edge: Edge, mode: Mode) -> Drawing<'a>
        requires { length (curve_knots (tree (lent tables.now) edge.curve)) ≤ most_knots }
        ensures over { lent result.tables.now ≡ lent tables.now }
        ensures of { result.edge ≡ edge }
        ensures in_mode { result.mode ≡ mode }
    {
        let usable = edge_range::usable_range(tables, edge.curve, edge.range);
        Drawing {
            tables,
            edge,
            mode,
            usable,
        }
    }

    // The same edge over another range, in the same mode.
    pub fn with_range(&self, range: Interval) -> Drawing<'a>
        ensures over { lent result.tables.now ≡ lent self.now.tables.now }
        ensures of { result.edge ≡ with_range self.now.edge range }
        ensures in_mode { result.mode ≡ self.now.mode }
    {
        let edge = Edge { range, ..self.edge };
        Drawing::new(self.tables, edge, self.mode)
    }
}

// An edge to be drawn, with the options for its size, which go a step deep at least: what drawing it and repair go by.
#[derive(Clone, Copy)]
pub struct Plan<'a> {
    pub drawing: &'a Drawing<'a>,
    pub options: Resolved,
    ghost deep: { 0 < options.depth },
}

// A range of an edge's curve, to be sampled by any options.
#[derive(Clone, Copy)]
pub struct Sampling<'a> {
    pub drawing: &'a Drawing<'a>,
    pub range: Interval,
    pub options: Resolved,
}
