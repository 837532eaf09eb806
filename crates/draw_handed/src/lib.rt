#![tactic(auto)]
// The chain of an answer, handed back as the part of the lent buffer that holds it, without copying.
ghost use Rattle.std.specs.Prelude.{◌≡◌, cond, ◌*◌, take};
ghost use Rattle.brep.specs.Rows.{lent};
ghost use Rattle.options.specs.declared.Mode.TheVariants.{Reference};
ghost use Rattle.edge_record.specs.Chain.{width};
ghost use Rattle.draw_spec.specs.Draw.{in_first, lies_in_first, chain_floats};
ghost use Rattle.draw_handed.specs.Handed.{Handed};

use brep::{Edge, LentTables};
use draw_spec::{Drawn, Way};
use options::{Mode, Options};
use refusal::Refusal;

// What a drawing hands back: its answer, the answer's chain as the part of the buffer that holds it, and both buffers whole.
#[derive(Clone, Copy)]
pub struct HandedBack<'a> {
    pub drawn: Result<Drawn, Refusal>,
    pub chain: &'a [f64],
    pub first: &'a [f64],
    pub second: &'a [f64],
}

// Whether a chain that was got in this way lies in the first buffer.
fn is_in_first(way: Way) -> bool
    ensures { result ≡ in_first way }
{
    matches!(way, Way::AsDrawn | Way::Chord)
}

// The first n records of a buffer, or all of it where it has not so many. Stays: the number beside the buffer, since an answer has it,
// and any buffer may be lent with an answer; `get` in place of the range would not say where the part begins.
fn leading<'a>(buffer: &'a [f64], n: usize) -> &'a [f64]
    ensures { (result.now ≡ take (width * n) buffer.now) × (result.ref_ptr ≡ buffer.entry.ref_ptr) }
{
    &buffer[..edge_record::WIDTH.saturating_mul(n).min(buffer.len())]
}

// The chain of an answer: the leading part of the buffer that holds it. For a refusal it is empty. Both buffers are lent to be
// read, so that nothing that is known of them is lost.
pub fn chain_of<'a>(drawn: Result<Drawn, Refusal>, first: &'a [f64], second: &'a [f64]) -> &'a [f64]
    ensures { (result.now ≡ take (chain_floats drawn) (cond (lies_in_first drawn) first.now second.now))
        × (result.ref_ptr ≡ cond (lies_in_first drawn) first.entry.ref_ptr second.entry.ref_ptr) }
{
    match drawn {
        Err(_) => leading(first, 0),
        Ok(chain) => {
            if is_in_first(chain.way) {
                leading(first, chain.count)
            } else {
                leading(second, chain.count)
            }
        }
    }
}

// Draws an edge in a mode, and hands back its answer and chain, the first buffer whole and the second.
pub fn drawn_chain_in_mode<'a>(
    tables: &LentTables<'_>,
    edge: Edge,
    options: Options,
    mode: Mode,
    first: &'a mut [f64],
    second: &'a mut [f64],
) -> HandedBack<'a>
    ensures { Handed mode (lent tables.now) edge options first.entry second.entry result }
{
    let drawn = draw::draw_in_mode(tables, edge, options, mode, &mut *first, &mut *second);
    let first = &first[..];
    let second = &second[..];
    HandedBack {
        drawn,
        chain: chain_of(drawn, first, second),
        first,
        second,
    }
}

// The same in the mode that is equal to the Rust.
pub fn drawn_chain<'a>(
    tables: &LentTables<'_>,
    edge: Edge,
    options: Options,
    first: &'a mut [f64],
    second: &'a mut [f64],
) -> HandedBack<'a>
    ensures { Handed Reference (lent tables.now) edge options first.entry second.entry result }
{
    drawn_chain_in_mode(tables, edge, options, Mode::Reference, first, second)
}
