// Working: everything is worked out anew from what is remembered.
ghost use Rattle.std.specs.Prelude.{◌≡◌, ◌+◌, min, if◌then◌else◌};
ghost use Rattle.protocol.specs.Rows.{Neighbour, remembered};
ghost use Rattle.protocol.specs.Works.{Gives, Worked};
ghost use Rattle.protocol.specs.Rules.{beginning, compared, best_of, is_child, size_of, telling_at, numbers_of};

use super::facts::{Own, WIRES};
use super::state::{Lamp, Numbers, Work};
use telling::{NOTHING, Telling};

// The best name known so far, how far off it is, and the neighbour that it came from.
#[derive(Clone, Copy)]
pub struct Best {
    pub name: u32,
    pub distance: u32,
    pub parent: u32,
}

impl Best {
    // A lamp knows of itself.
    fn begin(own: Own) -> Best
        ensures { result ≡ beginning own }
    {
        Best {
            name: own.name,
            distance: 0,
            parent: own.place,
        }
    }

    // The better of this and what a neighbour said.
    fn compared(self, most: u32, place: u32, said: Telling) -> Best
        ensures { result ≡ compared most self (record { place = place; telling = said }) }
    {
        let Some(distance) = said.distance.checked_add(1) else {
            return self;
        };
        let lower = said.best < self.name;
        let nearer = said.best == self.name && distance < self.distance;
        if distance < most && (lower || nearer) {
            Best {
                name: said.best,
                distance,
                parent: place,
            }
        } else {
            self
        }
    }

    // Whether the lamp at this place has a child that said this. No struct for place and said: of two lamps here, of one in `compared`.
    fn is_child(self, place: u32, said: Telling) -> bool
        ensures { result ≡ is_child place self said }
    {
        said.parent == place
            && said.best == self.name
            && said.distance.checked_sub(self.distance) == Some(1)
    }

    // A number that counts for a child, 0 for any other neighbour.
    fn if_child(self, place: u32, said: Telling, n: u32) -> u32
        ensures { result ≡ (if is_child place self said then n else 0) }
    {
        if self.is_child(place, said) { n } else { 0 }
    }
}

// A sum, cut to `most`, with nothing that wraps.
fn cut_sum(most: u32, a: u32, b: u32) -> u32
    ensures { result ≡ min most (a + b) }
{
    a.saturating_add(b).min(most)
}

impl Lamp {
    // The best of the own name and what all neighbours said, gone through by rising place.
    fn best(&self) -> Best
        ensures { result ≡ best_of self.now.site.own (remembered self.now) }
    {
        let mut best = Best::begin(self.site.own);
        for (place, said) in self.places().iter().zip(&self.heard) {
            best = best.compared(self.site.own.most, *place, *said);
        }
        best
    }

    // The lamp itself and what its children told, cut to `most`.
    fn size(&self, best: Best) -> u32
        ensures { result ≡ size_of self.now.site.own best (remembered self.now) }
    {
        let Own { most, place, .. } = self.site.own;
        let mut size = 1;
        for said in self.heard() {
            size = cut_sum(most, size, best.if_child(place, *said, said.size));
        }
        size
    }

    // What the neighbour at a place said.
    fn said_by(&self, place: u32) -> Telling
        ensures { result ≡ telling_at place (remembered self.now) }
    {
        match self.site.wire_to(place) {
            Some(k) => self.heard[k],
            None => NOTHING,
        }
    }

    // The six numbers, once the best is known.
    fn numbers(&self, best: Best) -> Numbers
        ensures { result ≡ numbers_of self.now.site.own best (remembered self.now) }
    {
        let Own { most, place, .. } = self.site.own;
        let size = self.size(best);
        let (total, number) = if best.parent == place {
            (size, 0)
        } else {
            let said = self.said_by(best.parent);
            (said.total.min(most), said.given.min(most))
        };
        Numbers {
            best: best.name,
            distance: best.distance,
            parent: best.parent,
            size,
            total,
            number,
        }
    }

    // By wire, the number given to that neighbour: to children one after the other, to others 0.
    fn given(&self, best: Best, number: u32) -> [u32; WIRES]
        ensures { Gives self.now best number result self.now.site.wires }
    {
        let Own { most, place, .. } = self.site.own;
        let mut given = [0; WIRES];
        let mut next = cut_sum(most, number, 1);
        for (k, said) in self.heard().iter().enumerate() {
            given[k] = best.if_child(place, *said, next);
            next = cut_sum(most, next, best.if_child(place, *said, said.size));
        }
        given
    }

    // Works everything out from what is remembered, and puts its tellings on all its wires.
    pub fn work(mut self) -> Lamp
        ensures { Worked self result }
    {
        let best = self.best();
        let numbers = self.numbers(best);
        let given = self.given(best, numbers.number);
        self.last = Some(Work { numbers, given });
        self
    }
}
