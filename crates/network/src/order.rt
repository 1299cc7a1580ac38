// All doings of a hall, and the order of a round.
ghost use Rattle.std.specs.Prelude.{◌≡◌, ◌+◌, ◌%◌, ◌<◌, ◌++◌, map, length, IfOk, OnOk};
ghost use Rattle.std.specs.List.{swap};
ghost use Rattle.model.specs.declared.Doing.TheVariants.{Work};
ghost use Rattle.network.specs.Sequence.{next_of, draw_at};
ghost use Rattle.network.specs.Order.{hearings_of, doings_in, order_of};

use super::draws::Draws;
use model::Doing;
use protocol::facts::Site;
use std::alloc::{AllocError, Global};

// Adds the hearings of one lamp. Tried: `extend` with a chain, behind which the check leaves open what the list holds.
fn push_hearings(doings: &mut Vec<Doing>, site: &Site) -> Result<(), AllocError>
    ensures { OnOk result (doings.new.items ≡ doings.old.items ++ hearings_of site.now) }
{
    let by = site.own().place;
    for of in site.places() {
        doings.push(Doing::Hear(by, *of))?;
    }
    Ok(())
}

// The works of all lamps.
fn works(heap: Global, sites: &[Site]) -> Result<Vec<Doing>, AllocError>
    ensures { IfOk result (λ doings. doings.items ≡ map (λ s. Work s.own.place) sites.now) }
{
    sites
        .iter()
        .map(|site| Doing::Work(site.own().place))
        .collect(heap)
}

// All works, and then all hearings.
pub(crate) fn all_doings(heap: Global, sites: &[Site]) -> Result<Vec<Doing>, AllocError>
    ensures { IfOk result (λ doings. doings.items ≡ doings_in sites.now) }
{
    let mut doings = works(heap, sites)?;
    for site in sites {
        push_hearings(&mut doings, site)?;
    }
    Ok(doings)
}

// Exchanges an entry with the one at a draw modulo how many there are up to it.
fn exchange(doings: &mut [Doing], k: usize, draws: &mut Draws)
    requires { k < length doings.old }
    ensures after { doings.new ≡ swap doings.old k (draw_at (next_of draws.old.state) % (k + 1)) }
    ensures next { draws.new.state ≡ next_of draws.old.state }
{
    let other = draws.draw() as usize % (k + 1);
    doings.swap(k, other);
}

// Puts doings into the order that a seed gives.
pub(crate) fn shuffle(doings: &mut [Doing], seed: u32)
    ensures { doings.new ≡ order_of seed doings.old }
{
    let mut draws = Draws { state: seed };
    // by index, from the back, since a swap is of two indices
    for k in (0..doings.len()).rev() {
        exchange(doings, k, &mut draws);
    }
}
