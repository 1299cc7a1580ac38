// What lamps tell each other, and how it stands in bytes.
#![tactic(auto)]

ghost use Rattle.std.specs.Prelude.{◌≡◌, ◌+◌, ◌<◌, length};
ghost use Rattle.telling.specs.Layout.{word_at, bytes_of, telling_of};

mod conversions;
pub mod fault;
pub mod frame;
pub mod memory;
pub mod refusal;
#[cfg(test)]
mod tests;

// The seven numbers that a lamp tells a neighbour.
#[derive(Clone, Copy, PartialEq, Eq, Debug)]
pub struct Telling {
    // the lowest name that the teller knows of
    pub best: u32,
    // how many wires away the lamp of that name is
    pub distance: u32,
    // the place of the neighbour that the name came from, the teller's own if from none
    pub parent: u32,
    // how many lamps the teller's subtree has
    pub size: u32,
    // how many lamps there are in all
    pub total: u32,
    // the teller's own number
    pub number: u32,
    // the number that the teller gives to the one told
    pub given: u32,
}

// What is remembered before anything was heard.
pub const NOTHING: Telling = Telling {
    best: 0,
    distance: 0,
    parent: 0,
    size: 0,
    total: 0,
    number: 0,
    given: 0,
};

// A telling's numbers take so many bytes, four each.
pub const PART: usize = 28;

fn word_at(bytes: &[u8], k: usize) -> u32
    requires { k + 3 < length bytes.now }
    ensures { result ≡ word_at bytes.now k }
{
    u32::from_be_bytes([bytes[k], bytes[k + 1], bytes[k + 2], bytes[k + 3]])
}

impl Telling {
    // The telling in 28 bytes. Not a From: it asks for the length, so that a part of a memory is handed on as it is.
    fn from_part(part: &[u8]) -> Telling
        requires { length part.now ≡ 28 }
        ensures { result ≡ telling_of part.now }
    {
        Telling {
            best: word_at(part, 0),
            distance: word_at(part, 4),
            parent: word_at(part, 8),
            size: word_at(part, 12),
            total: word_at(part, 16),
            number: word_at(part, 20),
            given: word_at(part, 24),
        }
    }

    // The 28 bytes of this telling. Not a From, as `from_part` is none; a loop over its words would lay four bytes at a time by index.
    fn to_part(self) -> [u8; PART]
        ensures { result ≡ bytes_of self }
    {
        let [a0, a1, a2, a3] = self.best.to_be_bytes();
        let [b0, b1, b2, b3] = self.distance.to_be_bytes();
        let [c0, c1, c2, c3] = self.parent.to_be_bytes();
        let [d0, d1, d2, d3] = self.size.to_be_bytes();
        let [e0, e1, e2, e3] = self.total.to_be_bytes();
        let [f0, f1, f2, f3] = self.number.to_be_bytes();
        let [g0, g1, g2, g3] = self.given.to_be_bytes();
        [
            a0, a1, a2, a3, b0, b1, b2, b3, c0, c1, c2, c3, d0, d1, d2, d3, e0, e1, e2, e3, f0, f1,
            f2, f3, g0, g1, g2, g3,
        ]
    }
}
