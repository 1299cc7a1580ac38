// Whether lamps hang together: who is reached from the first one.
ghost use Rattle.std.specs.Prelude.{◌≡◌, ◌<◌, ◌≤◌, length, IfOk};
ghost use Rattle.model.specs.Halls.{WiresWithin, WiredBothWays};
ghost use Rattle.topology.specs.Lamps.{hall_in};
ghost use Rattle.topology.specs.Reach.{touches, is_next, with_next, Spread, WhetherJoined};

use protocol::facts::Site;
use std::alloc::{AllocError, Global};

// Whether a neighbour of a lamp is reached.
fn touches(site: &Site, reached: &[bool]) -> bool
    ensures { result ≡ touches site.now reached.now }
{
    site.places()
        .iter()
        .any(|place| reached.get(*place as usize) == Some(&true))
}

// Reaches the lamp at a place if a neighbour is reached. Whether it was not before, as a set's insert answers.
fn reach(site: &Site, place: usize, reached: &mut [bool]) -> bool
    requires { place < length reached.old }
    ensures next { result ≡ is_next reached.old site.now place }
    ensures after { reached.new ≡ with_next reached.old place result }
{
    if reached[place] || !touches(site, reached) {
        return false;
    }
    reached[place] = true;
    true
}

// One pass over all lamps. Whether one more is reached.
fn spread(sites: &[Site], reached: &mut [bool]) -> bool
    requires { length reached.old ≡ length sites.now }
    ensures { Spread sites.now (length sites.now) reached.old reached.new result }
{
    let mut grew = false;
    for (place, site) in sites.iter().enumerate() {
        grew |= reach(site, place, reached);
    }
    grew
}

// Whether there is a way from each lamp to each other one.
pub(crate) fn hang_together(heap: Global, sites: &[Site]) -> Result<bool, AllocError>
    requires some { 1 ≤ length sites.now }
    requires within { WiresWithin (hall_in 0 sites.now) }
    requires both { WiredBothWays (hall_in 0 sites.now) }
    ensures { IfOk result (WhetherJoined sites.now) }
{
    let mut reached = vec![in heap; false; sites.len()]?;
    let reached = reached.as_mut_slice();
    reached[0] = true;
    // until a pass reaches nobody more
    while spread(sites, reached) {}
    Ok(reached.iter().all(|on| *on))
}
