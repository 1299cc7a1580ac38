// A lamp's state: where it hangs, what it remembers, what it worked out last.
ghost use Rattle.std.specs.Prelude.{◌≡◌, length};

use super::facts::{Site, WIRES};
use std::fmt;
use telling::Telling;

// The six numbers that a lamp works out: a telling has them too, but is read and kept as seven numbers in a row.
#[derive(Clone, Copy, PartialEq, Eq, Debug)]
pub struct Numbers {
    // the lowest name that it knows of
    pub best: u32,
    // how many wires away the lamp of that name is
    pub distance: u32,
    // the place of the neighbour that the name came from, its own if from none
    pub parent: u32,
    // how many lamps its subtree has
    pub size: u32,
    // how many lamps there are in all
    pub total: u32,
    // its own number
    pub number: u32,
}

impl fmt::Display for Numbers {
    ghost use Rattle.std.specs.Prelude.{Some};
    ghost use Rattle.protocol.specs.Works.{numbers_line};

    ghost output = { λ numbers. Some (numbers_line numbers) };

    fn fmt<W: fmt::Write>(&self, f: &mut fmt::Formatter<W>) -> fmt::Result {
        let Numbers {
            best,
            distance,
            parent,
            size,
            total,
            number,
        } = *self;
        write!(f, "{best} {distance} {parent} {size} {total} {number}")
    }
}

// What one work comes to. Tellings to neighbours differ in the number given alone, so only that is kept by wire.
#[derive(Clone, Copy)]
pub struct Work {
    pub numbers: Numbers,
    // by wire: fixed memory, a rule of the project
    pub given: [u32; WIRES],
    ghost full: { length given ≡ 16 },
}

// A lamp. Behind its wires, the tellings hold nothing of meaning.
#[derive(Clone, Copy)]
pub struct Lamp {
    pub(crate) site: Site,
    // by wire, the telling last heard on it: a rule of the project, an array of sixteen
    pub(crate) heard: [Telling; WIRES],
    pub(crate) last: Option<Work>,
}
