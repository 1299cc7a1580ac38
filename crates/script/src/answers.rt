// The text of what is shown of a hall.
ghost use Rattle.std.specs.Prelude.{◌≡◌, IfOk, string_bytes};
ghost use Rattle.script.specs.Answers.{lamp_text};

use protocol::state::Numbers;
use std::alloc::{AllocError, Global};

// The line of the lamp at a place: the place, and the numbers that it worked out last.
pub fn lamp_text(heap: Global, place: u32, numbers: Numbers) -> Result<String, AllocError>
    ensures { IfOk result (λ t. string_bytes t ≡ lamp_text place numbers) }
{
    format!(in heap; "{place}: {numbers}\n")
}
