// What a script can ask for.
use model::Doing;

// One of the numbers of a telling, in the order of its words; a lamp has all of them but the last.
#[derive(Clone, Copy)]
pub enum Field {
    Best,
    Distance,
    Parent,
    Size,
    Total,
    Number,
    Given,
}

#[derive(Clone, Copy)]
pub enum Command {
    // all numbers of memories, wires and lamps are drawn from a sequence with this seed
    Fill(u32),
    // a number of what the lamp at the first place remembers of the second
    SetMemory(u32, u32, Field, u32),
    // a number of what lies on the wire from the first place to the second
    SetWire(u32, u32, Field, u32),
    // noise lies on the wire from the first place to the second
    SetNoise(u32, u32),
    // a number of the lamp at a place
    SetLamp(u32, Field, u32),
    Do(Doing),
    // all works and all hearings once, in an order drawn from a sequence with this seed
    Round(u32),
    // what all lamps worked out last
    Show,
    // no line of the format: refused in its turn as other commands are, so an Option round each would only move this case
    Unknown,
}
