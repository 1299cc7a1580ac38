// The topology that lines describe, or why they describe none.
ghost use Rattle.std.specs.Prelude.{◌≡◌};
ghost use Rattle.topology.specs.Reading.{ReadAs, AcceptedIsSound};

use super::checks::{check_names, check_order, check_wires};
use super::fault::{Reason, Refused};
use super::hall::Topology;
use super::lines::Line;
use super::plan::{Plan, names_in};
use super::reach::hang_together;
use protocol::facts::Site;
use std::alloc::Global;
use telling::fault::Fault;

impl Topology {
    // The topology that the lines of a hall file describe. No TryFrom: it takes memory too.
    pub fn of(heap: Global, lines: &[Line]) -> Result<Topology, Fault<Refused>>
        ensures { ReadAs lines.now result }
    {
        let most = check_order(lines)?;
        let all = names_in(heap, lines)?;
        let names = all.as_slice();
        check_names(most, names)?;
        check_wires(names.len(), lines)?;
        Topology::build(heap, &Plan { most, names, lines })
    }

    fn build(heap: Global, plan: &Plan) -> Result<Topology, Fault<Refused>>
        ensures { ReadAs plan.now.lines.now result }
    {
        let Some(sites) = plan.sites(heap)? else {
            return Err(Fault::Refused(Refused::of_all(Reason::TooManyWires)));
        };
        if !hang_together(heap, sites.as_slice())? {
            return Err(Fault::Refused(Refused::of_all(Reason::NotJoined)));
        }
        Ok(Topology {
            most: plan.most,
            sites,
        })
    }

    // The lamps, in order of places.
    pub fn sites(&self) -> &[Site]
        ensures { result.now ≡ self.now.sites.items }
    {
        self.sites.as_slice()
    }
}

// Every topology is a sound hall.
pub fn accepted_is_sound()
    ensures { AcceptedIsSound }
{}
