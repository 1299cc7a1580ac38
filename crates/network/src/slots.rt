// Where what is said between two lamps stands.
ghost use Rattle.std.specs.Prelude.{◌≡◌, ◌*◌, ◌<◌, ◌≤◌, false, MatchOption, IfSome, nat_lt};
ghost use Rattle.model.specs.Halls.{is_wired};
ghost use Rattle.topology.specs.Reading.{hall_of};
ghost use Rattle.network.specs.Slots.{Slot, SiteOf};

use protocol::facts::{Site, WIRES};
use topology::hall::Topology;

// Whether there is a lamp at a place.
pub(crate) fn hangs(hall: &Topology, place: u32) -> bool
    ensures { result ≡ nat_lt place (hall_of hall.now).count }
{
    (place as usize) < hall.sites().len()
}

// The slot of what a lamp hears of another, where there is a wire between them.
// No struct for `by` and `of`, or `from` and `to`: the model's functions take two places, so each clause would take it apart.
pub(crate) fn slot(hall: &Topology, by: u32, of: u32) -> Option<usize>
    ensures found { MatchOption result (is_wired (hall_of hall.now) by of ≡ false) (λ s. Slot (hall_of hall.now) by of s) }
    ensures below { IfSome result (λ s. s < 16 * (hall_of hall.now).count) }
{
    let place = by as usize;
    let wire = hall.sites().get(place)?.wire_to(of)?;
    Some(WIRES * place + wire)
}

// The site of the lamp at a place, where there is one.
pub(crate) fn site(hall: &Topology, place: u32) -> Option<Site>
    ensures { MatchOption result ((hall_of hall.now).count ≤ place) (λ s. SiteOf (hall_of hall.now) place s) }
{
    hall.sites().get(place as usize).copied()
}
