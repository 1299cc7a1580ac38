// The state of a whole hall.

// So many words a telling takes.
pub const TELLING_WORDS: usize = 7;

// So many words the numbers of a lamp take.
pub const NUMBERS_WORDS: usize = 6;

// All that changes in a hall, in words that somebody lends: a rule of the project, for callers with no heap.
#[derive(Drop)]
pub struct State<'m, 'w, 'n, 'l> {
    // what is remembered, seven words by slot
    pub memories: &'m mut [u32],
    // what lies on wires, seven words by the slot of the one who hears it
    pub wires: &'w mut [u32],
    // by slot, what is not 0 where noise lies on that wire
    pub noise: &'n mut [u32],
    // what was worked out last, six words by lamp
    pub lamps: &'l mut [u32],
}
