// What is refused, by its number.
use std::fmt;

#[derive(Clone, Copy, PartialEq, Eq, Debug)]
pub enum Refusal {
    // a frame that cannot be read
    Unreadable = 1,
    // no wire to that place
    NoWire = 2,
    // a memory of another size
    Memory = 3,
    // bad arguments, or a line that is not of the format
    Input = 4,
}

impl From<Refusal> for u8 {
    ghost use Rattle.std.specs.Prelude.{◌≡◌};
    ghost use Rattle.telling.specs.Refusals.{refusal_number};

    ghost from_gives = { λ refusal n. n ≡ refusal_number refusal };

    fn from(refusal: Refusal) -> u8 {
        refusal as u8
    }
}

impl fmt::Display for Refusal {
    ghost use Rattle.std.specs.Prelude.{Some, decimal};
    ghost use Rattle.telling.specs.Refusals.{refusal_number};

    // a refusal is printed as its number
    ghost output = { λ refusal. Some (decimal (refusal_number refusal)) };

    fn fmt<W: fmt::Write>(&self, f: &mut fmt::Formatter<W>) -> fmt::Result {
        let number = u8::from(*self);
        write!(f, "{number}")
    }
}
