// Single numbers, set.
ghost use Rattle.std.specs.Prelude.{◌≡◌, slice_set};
ghost use Rattle.telling.specs.declared.frame.Reading.TheVariants.{Told};
ghost use Rattle.model.specs.Nets.{remembering, laid, noted};
ghost use Rattle.network.specs.Effects.{with_field, with_number, place_of, is_of_lamp, or_zeros};
ghost use Rattle.network.specs.Turns.{Turns};

use super::commands::Field;
use super::lent::Lent;
use super::slots::{hangs, slot};
use protocol::state::Numbers;
use telling::frame::Reading;
use telling::{NOTHING, Telling};

impl Field {
    // Words with this number set, where they have it.
    fn set_in<const N: usize>(self, mut words: [u32; N], n: u32) -> [u32; N]
        ensures { result ≡ slice_set words.entry (place_of self) n }
    {
        let k = self as usize;
        if k < N {
            words[k] = n;
        }
        words
    }

    // Whether a lamp has such a number.
    pub(crate) fn is_of_lamp(self) -> bool
        ensures { result ≡ is_of_lamp self }
    {
        !matches!(self, Field::Given)
    }
}

impl Lent<'_, '_, '_, '_, '_> {
    // A number of what a lamp remembers of another one, where they are wired.
    // No struct for `field` and `n`: it would be made of a command's parts and taken apart at once.
    pub(crate) fn set_memory(&mut self, by: u32, of: u32, field: Field, n: u32)
        ensures { Turns self.old self.new (λ net. remembering by of (with_field field n (net.heard by of)) net) }
    {
        if let Some(slot) = slot(self.hall, by, of) {
            let said = self.memory(slot);
            self.remember(by, of, Telling::from(field.set_in(said.into(), n)));
        }
    }

    // A number of what lies on a wire, where there is one; noise is gone then, and zeros are all else.
    pub(crate) fn set_wire(&mut self, from: u32, to: u32, field: Field, n: u32)
        ensures { Turns self.old self.new (λ net. laid from to (Told (with_field field n (or_zeros (net.line from to)))) net) }
    {
        if let Some(slot) = slot(self.hall, to, from) {
            let said = self.reading(slot).told().unwrap_or(NOTHING);
            let said = Telling::from(field.set_in(said.into(), n));
            self.lay(from, to, Reading::Told(said));
        }
    }

    // A number of a lamp, where there is that lamp.
    pub(crate) fn set_lamp(&mut self, place: u32, field: Field, n: u32)
        ensures { Turns self.old self.new (λ net. noted place (with_number field n (net.lamp place)) net) }
    {
        if hangs(self.hall, place) {
            let numbers = self.numbers(place as usize);
            self.note(place, Numbers::from(field.set_in(numbers.into(), n)));
        }
    }
}
