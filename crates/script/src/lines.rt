// A text, line by line.
ghost use Rattle.std.specs.Prelude.{◌≡◌, ℕ, ◌<◌, List, ◌∷◌, map, length, IfOk};
ghost use Rattle.text.specs.Words.{words_of};
ghost use Rattle.script.specs.Lines.{lines_of};

use std::alloc::{AllocError, Global};
use text::cut_at;

// What a line says, by its words; without memory, so that it cannot fail.
pub trait Said: Sized {
    ghost by: { List (List ℕ) → Self };

    fn said(line: &[u8]) -> Self
        ensures { result ≡ by (words_of line.now) };
}

// What each line of a text says. `lines_of` and `commands_of` are this at two types, and say of what the lines are.
// Apart from its callers: within a whole program its loops have no registers left, and a long line takes half as long again.
#[inline(never)]
pub(crate) fn each_line<T: Said + Drop>(heap: Global, text: &[u8]) -> Result<Vec<T>, AllocError>
    ensures { IfOk result (λ v. v.items ≡ map (λ line. T.Said.by (words_of line)) (lines_of text.now)) }
{
    let mut all = Vec::new(heap);
    let mut rest = text;
    // not by split_inclusive, which leaves each line its line feed to be cut off again
    while !rest.is_empty() {
        let (line, after) = next_line(rest);
        all.push(T::said(line))?;
        rest = after;
    }
    Ok(all)
}

// The first line of a text, without its line feed, and what stands behind that.
fn next_line(text: &[u8]) -> (&[u8], &[u8])
    requires { 0 < length text.now }
    ensures lines { lines_of text.now ≡ result.0.now ∷ lines_of result.1.now }
    ensures shorter { length result.1.now < length text.now }
{
    let (line, after) = cut_at(text, b'\n');
    (line, after.unwrap_or(&[]))
}
