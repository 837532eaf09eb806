// Parameters and the curve's records at them, put behind what is there. (In a file of its own: specs/ names the struct, and the clauses of lib.rt
// cite that.)
ghost use Rattle.edge_subdivide.specs.Own.Recorded.{Room};

use crate::End;
use edge_record::Sample;

// Where parameters go, and the curve's records at them. Stays: both are lent buffers, since memory is fixed, and one count beside them says how
// many of each there are.
#[derive(Drop)]
pub struct Recorder<'a> {
    pub params: &'a mut [f64],
    pub chain: &'a mut [f64],
    pub len: usize,
    ghost room: { Room params.now chain.now len },
}

impl Recorder<'_> {
    ghost use Rattle.edge_subdivide.specs.Own.Recorder.{Pushes};

    // The parameter of an end, and the record of its point; none where there is no room for them.
    pub fn push(&mut self, end: End) -> Option<()>
        ensures { Pushes end result self.old self.new }
    {
        let n = edge_params::push(self.params, self.len, end.t)?;
        let here = Sample {
            point: end.point,
            param: end.t,
        };
        edge_record::put(self.chain, self.len, here);
        self.len = n;
        Some(())
    }
}
