// Both chain buffers, lent together. (In a file of its own: specs/ names the struct, and the clauses of lib.rt cite that.)
ghost use Rattle.std.specs.Prelude.{◌≤◌, length};
ghost use Rattle.edge_record.specs.Chain.{shortest};

// The two buffers that a chain is drawn into, each with room for the shortest one: lent, since memory is fixed.
#[derive(Drop)]
pub struct Buffers<'a> {
    pub first: &'a mut [f64],
    pub second: &'a mut [f64],
    ghost first_long: { shortest ≤ length first.now },
    ghost second_long: { shortest ≤ length second.now },
}
