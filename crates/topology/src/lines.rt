// The lines of a hall file.

#[derive(Clone, Copy, PartialEq, Eq, Debug)]
pub enum Line {
    // as many lamps as the hall may have
    Most(u32),
    // a lamp of this name
    Lamp(u32),
    // a wire between the lamps at two places
    Wire(u32, u32),
    // no line of the format: it has a place among the others, so an Option round each would only move this case
    Unknown,
}
