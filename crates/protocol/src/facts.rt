// What a lamp knows of itself, and where its wires go.
ghost use Rattle.std.specs.Prelude.{◌≡◌, ◌≤◌, true, length, take};
ghost use Rattle.protocol.specs.Wiring.{is_sound};

// A lamp has at most so many wires.
pub const WIRES: usize = 16;

// What a lamp knows of itself.
#[derive(Clone, Copy, PartialEq, Eq, Debug)]
pub struct Own {
    // as many lamps as the hall may have
    pub most: u32,
    pub place: u32,
    pub name: u32,
}

// A lamp's own numbers and the places that it is wired to, by rising place; behind those the array holds nothing of meaning.
// Fixed memory, a rule of the project; and a site is copied, which an ArrayVec is not.
#[derive(Clone, Copy)]
pub struct Site {
    pub(crate) own: Own,
    pub(crate) wires: usize,
    pub(crate) places: [u32; WIRES],
    ghost full: { length places ≡ 16 },
    ghost few: { wires ≤ 16 },
    ghost sound: { is_sound own (take wires places) ≡ true },
}
