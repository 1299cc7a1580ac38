// A sound hall.
ghost use Rattle.std.specs.Prelude.{◌≤◌, vec_len};
ghost use Rattle.model.specs.Halls.{NamesDiffer, SitesSound, WiresWithin, WiredBothWays, HangTogether};
ghost use Rattle.topology.specs.Lamps.{hall_in, Placed, OfMost};

use protocol::facts::Site;

// The lamps of a hall, in order of places: 1 to `most` of them, with different names, wired both ways, and all hanging together.
#[derive(Drop)]
pub struct Topology {
    pub(crate) most: u32,
    pub(crate) sites: Vec<Site>,
    ghost placed: { Placed sites.items },
    ghost bounded: { OfMost most sites.items },
    ghost some: { 1 ≤ vec_len sites },
    ghost few: { vec_len sites ≤ most },
    ghost names: { NamesDiffer (hall_in most sites.items) },
    ghost within: { WiresWithin (hall_in most sites.items) },
    ghost both: { WiredBothWays (hall_in most sites.items) },
    ghost joined: { HangTogether (hall_in most sites.items) },
}
