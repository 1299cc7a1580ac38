// What one doing makes of the state.
ghost use Rattle.model.specs.Nets.{hearing, telling, working, did, ran};
ghost use Rattle.topology.specs.Reading.{hall_of};
ghost use Rattle.network.specs.Slots.{SiteOf, told_by};
ghost use Rattle.network.specs.Turns.{Turns};

use super::lent::Lent;
use super::slots::{site, slot};
use super::words::put;
use model::Doing;
use protocol::facts::{Site, WIRES};
use protocol::state::{Lamp, Work};
use telling::frame::Reading;

impl Lent<'_, '_, '_, '_, '_> {
    // A lamp hears what lies on the wire from another one, where they are wired; noise changes nothing.
    pub(crate) fn hear(&mut self, by: u32, of: u32)
        ensures { Turns self.old self.new (hearing by of) }
    {
        let Some(slot) = slot(self.hall, by, of) else {
            return;
        };
        if let Reading::Told(said) = self.reading(slot) {
            put(self.memories, slot, said.into());
        }
    }

    // Puts on each wire of a lamp what a work tells there.
    fn tell(&mut self, place: u32, site: &Site, work: &Work)
        requires { SiteOf (hall_of self.old.hall.now) place site.now }
        ensures { Turns self.old self.new (telling (hall_of self.old.hall.now) place (told_by site.now work.now)) }
    {
        for (k, to) in site.places().iter().enumerate() {
            self.lay(place, *to, Reading::Told(work.telling(k)));
        }
    }

    // A lamp works from its row, and puts its tellings on all its wires, where there is that lamp.
    pub(crate) fn work(&mut self, place: u32)
        ensures { Turns self.old self.new (working (hall_of self.old.hall.now) place) }
    {
        let Some(site) = site(self.hall, place) else {
            return;
        };
        let first = WIRES * place as usize;
        let heard = site.by_wire(|k| self.memory(first + k));
        if let Some(work) = Lamp::remembering(site, heard).work().worked() {
            self.tell(place, &site, &work);
            self.note(place, work.numbers);
        }
    }

    pub(crate) fn carry(&mut self, doing: Doing)
        ensures { Turns self.old self.new (did (hall_of self.old.hall.now) doing) }
    {
        match doing {
            Doing::Work(place) => self.work(place),
            Doing::Hear(by, of) => self.hear(by, of),
        }
    }

    // One doing after the other.
    pub(crate) fn run(&mut self, doings: &[Doing])
        ensures { Turns self.old self.new (ran (hall_of self.old.hall.now) doings.now) }
    {
        for doing in doings {
            self.carry(*doing);
        }
    }
}
