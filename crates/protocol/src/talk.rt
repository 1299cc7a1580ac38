// Hearing and telling, in frames.
ghost use Rattle.std.specs.Prelude.{◌≡◌, replicate, take, None, slice_index};
ghost use Rattle.telling.specs.Readings.{reading_of};
ghost use Rattle.protocol.specs.Rows.{places_of};
ghost use Rattle.protocol.specs.Rules.{nothing, telling_with};
ghost use Rattle.protocol.specs.Hearing.{Heard};
ghost use Rattle.protocol.specs.Works.{shown, tell_of};

use super::facts::{Site, WIRES};
use super::state::{Lamp, Numbers, Work};
use telling::frame::{FRAME, Reading};
use telling::refusal::Refusal;
use telling::{NOTHING, Telling};

impl Work {
    // What lies on the k-th wire.
    pub fn telling(&self, k: usize) -> Telling
        ensures { result ≡ telling_with self.now.numbers (slice_index self.now.given k) }
    {
        let Numbers {
            best,
            distance,
            parent,
            size,
            total,
            number,
        } = self.numbers;
        Telling {
            best,
            distance,
            parent,
            size,
            total,
            number,
            given: self.given.get(k).copied().unwrap_or(0),
        }
    }
}

impl Lamp {
    // A lamp that has heard nothing yet.
    pub fn new(site: Site) -> Lamp
        ensures { result ≡ record { site = site; heard = replicate 16 nothing; last = None } }
    {
        Lamp::remembering(site, [NOTHING; WIRES])
    }

    // A lamp that has heard this, by wire, and has not worked yet.
    pub fn remembering(site: Site, heard: [Telling; WIRES]) -> Lamp
        ensures { result ≡ record { site = site; heard = heard; last = None } }
    {
        Lamp {
            site,
            heard,
            last: None,
        }
    }

    // The places that the lamp is wired to, by rising place.
    pub fn places(&self) -> &[u32]
        ensures { result.now ≡ places_of self.now.site }
    {
        self.site.places()
    }

    // What was heard last, by wire.
    pub(crate) fn heard(&self) -> &[Telling]
        ensures { result.now ≡ take self.now.site.wires self.now.heard }
    {
        &self.heard[0..self.site.wires]
    }

    // What the last work came to, none before the first.
    pub fn worked(&self) -> Option<Work>
        ensures { result ≡ self.now.last }
    {
        self.last
    }

    // The numbers worked out last, none before the first work.
    pub fn shown(&self) -> Option<Numbers>
        ensures { result ≡ shown self.now }
    {
        self.last.map(|work| work.numbers)
    }

    // Remembers what was read on the wire from a neighbour, or refuses and changes nothing.
    fn take(&mut self, from: u32, reading: Reading) -> Result<(), Refusal>
        ensures { Heard reading from self.old self.new result }
    {
        let said = reading.told()?;
        let k = self.site.wire_to(from).ok_or(Refusal::NoWire)?;
        self.heard[k] = said;
        Ok(())
    }

    // Remembers what a frame from a neighbour says, or refuses and changes nothing. A rule of the project: the lamp is handed
    // over by value and back in either case.
    pub fn hear(mut self, from: u32, frame: &[u8]) -> (Lamp, Result<(), Refusal>)
        ensures { Heard (reading_of frame.now) from self result.0 result.1 }
    {
        let heard = self.take(from, Reading::from(frame));
        (self, heard)
    }

    // The frame that lies on the wire to a neighbour, none before the first work.
    pub fn tell(&self, to: u32) -> Result<Option<[u8; FRAME]>, Refusal>
        ensures { result ≡ tell_of self.now to }
    {
        let k = self.site.wire_to(to).ok_or(Refusal::NoWire)?;
        let Some(work) = self.last else {
            return Ok(None);
        };
        Ok(Some(work.telling(k).to_frame()))
    }
}
