#![tactic(auto)]
// Replays how points are measured from chords. Reads parts from standard input, each ended by exactly four equals signs and a
// newline, and writes for each its answer and a line `====`. A part's first line says what is behind it.
//
// measure: at most 1,000 lines of nine floats, `x y z` of a chord's start, of its end, and of a point. Each is answered by `DISTANCE
// PLACE DISTANCE PLACE`: how the point is measured where points are thinned, then where a span is bisected.
//
// every: at most 64 lines of three floats, `x y z` of a point. Answered for each of them as a chord's start, and there for each as its
// end, by `DIGEST DIGEST`: of how all of the points, in order, are measured where points are thinned, and where a span is bisected.
// Where a line is malformed, or there are more than 64, the whole answer is `?`.
//
// Floats are 16 lowercase hex digits of their bits, and digests are 16 of theirs. Every NaN is written, and digested, as
// 7ff8000000000000. `?` answers a malformed line, and a part that begins otherwise.

use math::Vec3;
use math_chord::Measured;
use replay_text::{Parts, Waiting};
use sheet_layout::Column::Float;
use std::num::f64_to_bits_with_nan;

// The lines that parts begin with.
const MEASURE: &[u8] = b"measure\n";

const EVERY: &[u8] = b"every\n";

// The bytes of a line of nine floats: 16 digits of each, and the byte behind them.
const LINE: usize = 9 * 17;

// A part has at most so many bytes: its first line, a thousand of nine floats, and the four of the separator behind them. What is more is
// left out.
const SIZE: usize = MEASURE.len() + 1000 * LINE + 4;

// The most points of which every chord is taken.
const MOST: usize = 64;

// What a digest is multiplied by.
const FACTOR: u64 = 0x517CC1B727220A95;

// The answer to what is malformed.
const MALFORMED: &[u8] = b"?\n";

// Lines read.

// The vector of these bits.
fn vector(x: u64, y: u64, z: u64) -> Vec3 {
    Vec3 {
        x: sheet_row::float_of(x),
        y: sheet_row::float_of(y),
        z: sheet_row::float_of(z),
    }
}

// The point of a line.
fn point_of(line: &[u8]) -> Option<Vec3> {
    let ([x, y, z, ..], _) = sheet_layout::line(line, &[Float; 3])?;
    Some(vector(x, y, z))
}

// A chord's start and end, and the point that is measured from it.
fn measured_of(line: &[u8]) -> Option<[Vec3; 3]> {
    let ([ax, ay, az, bx, by, bz, px, py, pz], _) = sheet_layout::line(line, &[Float; 9])?;
    Some([vector(ax, ay, az), vector(bx, by, bz), vector(px, py, pz)])
}

// The points of a text's lines; none where a line is malformed, or where there is no room for all.
fn points_of<'a>(text: &[u8], room: &'a mut [Vec3]) -> Option<&'a [Vec3]> {
    let count = text.split_inclusive(|b| *b == b'\n').count();
    let points = room.get_mut(..count)?;
    let lines = text.split_inclusive(|b| *b == b'\n');
    for (point, line) in points.iter_mut().zip(lines) {
        *point = point_of(line)?;
    }
    Some(points)
}

// A point, measured from a chord.

// The measures of a point: `points` are the chord's start and end, and the point.
fn put_measured(points: [Vec3; 3], out: &mut Waiting) {
    let [a, b, p] = points;
    let thinned = math_chord::measure_for_thinning(a, b, p);
    let bisected = math_chord::measure_for_bisection(a, b, p);
    out.put_float(thinned.distance, b' ');
    out.put_float(thinned.place, b' ');
    out.put_float(bisected.distance, b' ');
    out.put_float(bisected.place, b'\n');
}

fn put_measure(lines: &[u8], out: &mut Waiting) {
    for line in lines.split_inclusive(|b| *b == b'\n') {
        match measured_of(line) {
            Some(points) => put_measured(points, out),
            None => out.put_word(MALFORMED),
        }
    }
}

// All points, measured from every chord.

// A digest, which begins with zero, and 64 bits more.
fn mix(digest: u64, bits: u64) -> u64 {
    (digest.rotate_left(5) ^ bits).wrapping_mul(FACTOR)
}

// A digest, and a point's distance, then its place.
fn mix_measured(digest: u64, measured: Measured) -> u64 {
    let with_distance = mix(digest, f64_to_bits_with_nan(measured.distance));
    mix(with_distance, f64_to_bits_with_nan(measured.place))
}

// The digests of all points from the chord from a to b.
fn put_digests(a: Vec3, b: Vec3, points: &[Vec3], out: &mut Waiting) {
    let mut thinned = 0u64;
    let mut bisected = 0u64;
    for p in points {
        thinned = mix_measured(thinned, math_chord::measure_for_thinning(a, b, *p));
        bisected = mix_measured(bisected, math_chord::measure_for_bisection(a, b, *p));
    }
    out.put_hex(thinned, b' ');
    out.put_hex(bisected, b'\n');
}

// The chords from a.
fn put_chords(a: Vec3, points: &[Vec3], out: &mut Waiting) {
    for b in points {
        put_digests(a, *b, points, out);
    }
}

fn put_every(lines: &[u8], out: &mut Waiting) {
    let mut room = [Vec3::ZERO; MOST];
    let Some(points) = points_of(lines, &mut room) else {
        return out.put_word(MALFORMED);
    };
    for a in points {
        put_chords(*a, points, out);
    }
}

// The batch.

// The answer to a part, by the line that it begins with.
fn answer(text: &[u8], out: &mut Waiting) {
    if let Some(lines) = text.strip_prefix(MEASURE) {
        return put_measure(lines, out);
    }
    if let Some(lines) = text.strip_prefix(EVERY) {
        return put_every(lines, out);
    }
    out.put_word(MALFORMED);
}

// All of the input, part by part. A part that no separator ended has no answer. The loop counts its turns, up to a number that no
// run reaches, since nothing says that an input ends.
fn main(rt: HostRuntime) {
    let mut out = Waiting::new(rt.stdout());
    let mut parts = Parts::<SIZE>::new(rt.stdin(), true);
    for _ in 0..u64::MAX {
        if !parts.read_part() {
            break;
        }
        answer(parts.text(), &mut out);
        out.put_word(b"====\n");
    }
    out.flush();
}
