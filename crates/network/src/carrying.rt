// Carrying out commands.
ghost use Rattle.std.specs.Prelude.{◌≡◌, MatchResult, OnOk, OnErr};
ghost use Rattle.model.specs.Nets.{ran};
ghost use Rattle.topology.specs.Reading.{hall_of};
ghost use Rattle.network.specs.Order.{doings_in, order_of};
ghost use Rattle.network.specs.Effects.{all_filled, effect_of};
ghost use Rattle.network.specs.Turns.{Turns};
ghost use Rattle.network.specs.Carried.{is_roomy, Carried, numbers_at};

use super::commands::Command;
use super::lent::Lent;
use super::order::{all_doings, shuffle};
use super::refusals::refusal_of;
use super::slots::hangs;
use super::state::{NUMBERS_WORDS, State, TELLING_WORDS};
use super::words::part;
use model::Doing;
use protocol::facts::WIRES;
use protocol::state::Numbers;
use std::alloc::{AllocError, Global};
use telling::frame::Reading;
use telling::refusal::Refusal;
use topology::hall::Topology;

impl Lent<'_, '_, '_, '_, '_> {
    // The doings, in the order that a seed gives.
    fn round(&mut self, doings: &mut [Doing], seed: u32)
        ensures { Turns self.old self.new (ran (hall_of self.old.hall.now) (order_of seed doings.old)) }
    {
        shuffle(doings, seed);
        self.run(doings);
    }

    // Does what a command that is not refused asks for.
    fn apply(&mut self, heap: Global, command: Command) -> Result<(), AllocError>
        ensures ok { OnOk result (Turns self.old self.new (effect_of (hall_of self.old.hall.now) self.old.hall.now.sites.items command)) }
        ensures err { OnErr result (self.new ≡ self.old) }
    {
        match command {
            Command::Fill(seed) => {
                let doings = all_doings(heap, self.hall.sites())?;
                self.fill(doings.as_slice(), seed);
            }
            Command::Round(seed) => {
                let mut doings = all_doings(heap, self.hall.sites())?;
                self.round(doings.as_mut_slice(), seed);
            }
            Command::SetMemory(by, of, field, n) => self.set_memory(by, of, field, n),
            Command::SetWire(from, to, field, n) => self.set_wire(from, to, field, n),
            Command::SetNoise(from, to) => self.lay(from, to, Reading::Noise),
            Command::SetLamp(place, field, n) => self.set_lamp(place, field, n),
            Command::Do(doing) => self.carry(doing),
            Command::Show | Command::Unknown => {}
        }
        Ok(())
    }
}

impl State<'_, '_, '_, '_> {
    // Whether the words are just as many as the hall wants.
    fn is_roomy(&self, hall: &Topology) -> bool
        ensures { result ≡ is_roomy (hall_of hall.now) self.now }
    {
        let count = hall.sites().len();
        let slots = WIRES * count;
        self.memories.len() == TELLING_WORDS * slots
            && self.wires.len() == TELLING_WORDS * slots
            && self.noise.len() == slots
            && self.lamps.len() == NUMBERS_WORDS * count
    }

    // Carries a command out, or refuses it and changes nothing. Where no memory is had, nothing has changed either.
    // Two results: a script goes on behind a refusal, and ends for want of memory.
    pub fn carry_out(
        &mut self,
        heap: Global,
        hall: &Topology,
        command: Command,
    ) -> Result<Result<(), Refusal>, AllocError>
        ensures { MatchResult result (λ answer. Carried hall.now self.old self.new command answer) (λ _. self.new ≡ self.old) }
    {
        if !self.is_roomy(hall) {
            return Ok(Err(Refusal::Memory));
        }
        let answer = refusal_of(hall, command);
        if answer.is_ok() {
            let mut lent = Lent {
                hall,
                memories: &mut *self.memories,
                wires: &mut *self.wires,
                noise: &mut *self.noise,
                lamps: &mut *self.lamps,
            };
            lent.apply(heap, command)?;
        }
        Ok(answer)
    }

    // What the lamp at a place worked out last, where there is one.
    pub fn numbers_at(&self, hall: &Topology, place: u32) -> Option<Numbers>
        ensures { result ≡ numbers_at hall.now self.now place }
    {
        if !self.is_roomy(hall) || !hangs(hall, place) {
            return None;
        }
        Some(Numbers::from(part(self.lamps, place as usize)))
    }
}
