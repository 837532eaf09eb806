#![tactic(auto)]
// Cause 2: a float not finite, or above 1e9 in magnitude. Every float is looked at, used or not.
ghost use Rattle.std.specs.Prelude.{◌≡◌};
ghost use Rattle.std.specs.List.{list_any};
ghost use Rattle.causes_bounds.specs.Bounds.{within, beyond, finite_beyond, edge_beyond, options_beyond, unbounded_tables, unbounded_edge};

use brep::Edge;
use options::Options;

#[tactic(auto, unfolding(crate::specs::Bounds::within))]
fn within(x: f64) -> bool
    ensures { result ≡ within x }
{
    -1e9 <= x && x <= 1e9
}

#[tactic(auto, unfolding(crate::specs::Bounds::beyond))]
fn beyond(x: f64) -> bool
    ensures { result ≡ beyond x }
{
    !within(x)
}

// Of a float that may be NaN or infinite.
#[tactic(auto, unfolding(crate::specs::Bounds::finite_beyond))]
fn finite_beyond(x: f64) -> bool
    ensures { result ≡ finite_beyond x }
{
    arith::is_finite(x) && beyond(x)
}

fn any_beyond(floats: &[f64]) -> bool
    ensures { result ≡ list_any beyond floats.now }
{
    floats.iter().any(|x| beyond(*x))
}

#[tactic(auto, unfolding(crate::specs::Bounds::edge_beyond))]
fn edge_beyond(edge: Edge) -> bool
    ensures { result ≡ edge_beyond edge }
{
    finite_beyond(edge.range.lo) || finite_beyond(edge.range.hi) || beyond(edge.tolerance)
}

#[tactic(auto, unfolding(crate::specs::Bounds::options_beyond))]
fn options_beyond(options: Options) -> bool
    ensures { result ≡ options_beyond options }
{
    let angle = options.angle.to_radians();
    beyond(options.deflection) || beyond(angle) || finite_beyond(options.scale)
}

// Of the tables.
pub fn unbounded_tables(points: &[f64], reals: &[f64], ranges: &[f64]) -> bool
    ensures { result ≡ unbounded_tables points.now reals.now ranges.now }
{
    any_beyond(points) || any_beyond(reals) || any_beyond(ranges)
}

// Of the edge and the options.
pub fn unbounded_edge(edge: Edge, options: Options) -> bool
    ensures { result ≡ unbounded_edge edge options }
{
    edge_beyond(edge) || options_beyond(options)
}
