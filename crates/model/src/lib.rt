// The hall as a whole: which doings there are. What they do, and what is promised of them, stands in specs/.
#![tactic(auto)]

// One lamp does one thing.
#[derive(Clone, Copy)]
pub enum Doing {
    // the lamp at this place works, and puts its tellings on all its wires
    Work(u32),
    // the lamp at the first place hears what lies on the wire from the second
    Hear(u32, u32),
}
