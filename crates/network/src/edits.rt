// One thing in a hall's lent words written, all else left as it was.
ghost use Rattle.std.specs.Prelude.{◌≡◌, ◌*◌, ◌<◌};
ghost use Rattle.model.specs.Nets.{remembering, laid, noted};
ghost use Rattle.topology.specs.Reading.{hall_of};
ghost use Rattle.network.specs.Words.{telling_in, numbers_in, reading_in};
ghost use Rattle.network.specs.Turns.{Turns};

use super::lent::Lent;
use super::slots::{hangs, slot};
use super::words::{part, put};
use protocol::state::Numbers;
use telling::Telling;
use telling::frame::Reading;

impl Lent<'_, '_, '_, '_, '_> {
    // What is remembered in a slot.
    pub(crate) fn memory(&self, slot: usize) -> Telling
        requires { slot < 16 * (hall_of self.now.hall.now).count }
        ensures { result ≡ telling_in self.now.memories.now slot }
    {
        Telling::from(part(self.memories, slot))
    }

    // What lies on the wire of a slot.
    pub(crate) fn reading(&self, slot: usize) -> Reading
        requires { slot < 16 * (hall_of self.now.hall.now).count }
        ensures { result ≡ reading_in self.now.wires.now self.now.noise.now slot }
    {
        if self.noise[slot] == 0 {
            Reading::Told(Telling::from(part(self.wires, slot)))
        } else {
            Reading::Noise
        }
    }

    // What the lamp at a place worked out last.
    pub(crate) fn numbers(&self, place: usize) -> Numbers
        requires { place < (hall_of self.now.hall.now).count }
        ensures { result ≡ numbers_in self.now.lamps.now place }
    {
        Numbers::from(part(self.lamps, place))
    }

    // A lamp remembers this of another one, where they are wired.
    pub(crate) fn remember(&mut self, by: u32, of: u32, said: Telling)
        ensures { Turns self.old self.new (remembering by of said) }
    {
        if let Some(slot) = slot(self.hall, by, of) {
            put(self.memories, slot, said.into());
        }
    }

    // This lies on the wire from a lamp to another one, where there is one.
    pub(crate) fn lay(&mut self, from: u32, to: u32, reading: Reading)
        ensures { Turns self.old self.new (laid from to reading) }
    {
        if let Some(slot) = slot(self.hall, to, from) {
            match reading {
                Reading::Told(said) => {
                    put(self.wires, slot, said.into());
                    self.noise[slot] = 0;
                }
                Reading::Noise => self.noise[slot] = 1,
            }
        }
    }

    // A lamp has worked these numbers out, where there is that lamp.
    pub(crate) fn note(&mut self, place: u32, numbers: Numbers)
        ensures { Turns self.old self.new (noted place numbers) }
    {
        if hangs(self.hall, place) {
            put(self.lamps, place as usize, numbers.into());
        }
    }
}
