#![tactic(auto)]
// The records of an edge's chain, from its parameters: in the edge's own direction, with both ends pinned to the vertices. And the chord of
// the vertices alone.
ghost use Rattle.std.specs.Prelude.{◌≡◌, true, reverse, ◌+◌, ◌-◌, ◌*◌, ◌<◌, ◌≤◌, length};
ghost use Rattle.std.proofs.lemmas.List.Edits.{sets};
ghost use Rattle.base_lists.specs.Room.{filled};
ghost use Rattle.brep.specs.Rows.{Tables, lent};
ghost use Rattle.brep.specs.Tree.{tree};
ghost use Rattle.edge_record.specs.Chain.{width, shortest, row, flat, sample_at, samples};
ghost use Rattle.edge_record.specs.Own.Stored.{HasRecord};
ghost use Rattle.draw_spec.specs.Edge.{edge_curve, edge_start, edge_end, located, is_reversed, oriented, moved_to, pinned, chord_of, placed};
ghost use Rattle.edge_record.specs.Own.Records.{records_of};
ghost use Rattle.edge_place.specs.Own.Place.{of_points, chord_between};

use brep::{Edge, LentTables};
use curve_prepared::PreparedCurve;
use edge_record::Sample;
use math::Vec3;

// Whether a chain that follows its parameters from head to tail runs against the edge, whose vertices are at start and end. Where these are
// too near each other to tell, the sense does. Stays: here and in edge_segment the vertices have been read where a chain is drawn; a struct
// of edge and vertices that said so would carry the points too, and be made for each chain to be taken apart here.
pub fn runs_back(edge: Edge, start: Vec3, end: Vec3, head: Vec3, tail: Vec3) -> bool
    ensures { (T : Tables) → start ≡ edge_start T edge → end ≡ edge_end T edge → result ≡ is_reversed T edge head tail }
{
    let near = edge.tolerance * 10.0;
    if end.sub(start).length_squared() <= near * near {
        return edge.sense == 0;
    }
    tail.sub(start).length_squared() < head.sub(start).length_squared()
}

// Exchanges two records. Stays: here and below a record is reached by its index, as in edge_record, whose head says why.
fn swap(chain: &mut [f64], i: usize, j: usize)
    requires { HasRecord chain.old i × HasRecord chain.old j }
    ensures { chain.new ≡ sets (sets chain.old (width * i) (row (sample_at chain.old j))) (width * j) (row (sample_at chain.old i)) }
{
    let a = edge_record::sample_at(chain, i);
    let b = edge_record::sample_at(chain, j);
    edge_record::put(chain, i, b);
    edge_record::put(chain, j, a);
}

// Turns the records round. Stays: by their places, two at a time, since `as_chunks_mut` and `chunks_exact_mut`, which would lend the records
// themselves, to `reverse` or to exchange, say nothing in their contracts of what the slice ends as.
fn turn(records: &mut [f64])
    ensures { records.new ≡ sets records.old 0 (flat (reverse (records_of records.old))) }
{
    let n = records.len() / edge_record::WIDTH;
    let half = n / 2;
    for i in 0..half {
        swap(records, i, n - 1 - i);
    }
}

// Turns the records, which follow their parameters, round where they run against the edge, whose vertices are at start and end.
fn orient(edge: Edge, start: Vec3, end: Vec3, records: &mut [f64])
    requires { HasRecord records.old 0 }
    ensures { (T : Tables) → start ≡ edge_start T edge → end ≡ edge_end T edge
        → records.new ≡ sets records.old 0 (flat (oriented T edge (records_of records.old))) }
{
    let last = records.len() / edge_record::WIDTH - 1;
    let head = edge_record::record_point(records, 0);
    let tail = edge_record::record_point(records, last);
    if runs_back(edge, start, end, head, tail) {
        turn(records);
    }
}

// Moves record i to a vertex. Its parameter stands.
fn pin(chain: &mut [f64], i: usize, vertex: Vec3)
    requires { HasRecord chain.old i }
    ensures { chain.new ≡ sets chain.old (width * i) (row (moved_to vertex (sample_at chain.old i))) }
{
    let s = edge_record::sample_at(chain, i);
    edge_record::put(chain, i, Sample { point: vertex, ..s });
}

// Moves the first and the last of the records to the vertices.
fn pin_ends(start: Vec3, end: Vec3, records: &mut [f64])
    requires { HasRecord records.old 0 }
    ensures { records.new ≡ sets records.old 0 (flat (pinned start end (records_of records.old))) }
{
    let last = records.len() / edge_record::WIDTH - 1;
    pin(records, 0, start);
    pin(records, last, end);
}

// Evaluates the curve of a row at each parameter: the chain's first records are its points there. Stays: the parameters lie apart from the
// chain, as the caller has them; the C interface lends the chain, and the parameters are in scratch.
fn locate(tables: &LentTables<'_>, row: u32, params: &[f64], chain: &mut [f64])
    requires { width * length params.now ≤ length chain.old }
    ensures { chain.new ≡ sets chain.old 0 (flat (located (tree (lent tables.now) row) params.now)) }
{
    let curve = PreparedCurve::new(tables, row);
    for (i, t) in params.iter().enumerate() {
        let param = *t;
        let point = curve.point(param);
        edge_record::put(chain, i, Sample { point, param });
    }
}

// Writes a record for each parameter, from the chain's start. Where `known`, the records hold the curve's points and the
// parameters already, and nothing is evaluated: a chain that runs back is turned round where it stands. Stays: parameters and
// chain are the caller's two buffers, as for `locate`; a flag, since the clause is the same either way, and says what the flag must mean.
pub fn place(tables: &LentTables<'_>, edge: Edge, params: &[f64], known: bool, chain: &mut [f64])
    requires { (2 ≤ length params.now) × (width * length params.now ≤ length chain.old)
        × (known ≡ true → samples (length params.now) chain.old ≡ located (edge_curve (lent tables.now) edge) params.now) }
    ensures { chain.new ≡ sets chain.old 0 (flat (placed (lent tables.now) edge params.now)) }
{
    let wide = edge_record::WIDTH * params.len();
    let records = &mut chain[..wide];
    if !known {
        let row = edge.curve;
        locate(tables, row, params, records);
    }
    let start = brep::point(tables.points, edge.start);
    let end = brep::point(tables.points, edge.end);
    orient(edge, start, end, records);
    pin_ends(start, end, records);
}

// The chord of two points with the parameters a and b, and +0.0 behind it. Stays: the room for the shortest chain is a clause of one slice, here, in
// edge_segment and where a slice of `edge_repair::Buffers` is lent on, as at `edge_discretise::discretise_usable`.
pub fn chord_between(start: Vec3, end: Vec3, a: f64, b: f64, chain: &mut [f64])
    requires { shortest ≤ length chain.old }
    ensures { chain.new ≡ filled (length chain.old) (flat (chord_between start end a b)) }
{
    edge_record::put(
        chain,
        0,
        Sample {
            point: start,
            param: a,
        },
    );
    edge_record::put(
        chain,
        1,
        Sample {
            point: end,
            param: b,
        },
    );
    base_lists::clear_from(chain, 2 * edge_record::WIDTH);
}

// The two-vertex chord with the parameters a and b, and +0.0 behind it.
pub fn chord(points: &[f64], edge: Edge, a: f64, b: f64, chain: &mut [f64])
    requires { shortest ≤ length chain.old }
    ensures { chain.new ≡ filled (length chain.old) (flat (chord_of (of_points points.now) edge a b)) }
{
    let start = brep::point(points, edge.start);
    let end = brep::point(points, edge.end);
    chord_between(start, end, a, b, chain);
}
