// A hall with the words that are lent for it.
ghost use Rattle.topology.specs.Reading.{hall_of};
ghost use Rattle.network.specs.Stands.{Roomy};

use topology::hall::Topology;

// The words are just as many as the hall wants.
// Tried: a `&mut State` for the four; where `carry_out` makes it, a reference in it has a lifetime that the check doesn't cover.
#[derive(Drop)]
pub(crate) struct Lent<'h, 'm, 'w, 'n, 'l> {
    pub(crate) hall: &'h Topology,
    pub(crate) memories: &'m mut [u32],
    pub(crate) wires: &'w mut [u32],
    pub(crate) noise: &'n mut [u32],
    pub(crate) lamps: &'l mut [u32],
    ghost roomy: { Roomy (hall_of hall.now) (record { memories = memories; wires = wires; noise = noise; lamps = lamps }) },
}
