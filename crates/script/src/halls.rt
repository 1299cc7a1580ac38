// The lines of a hall file.
ghost use Rattle.std.specs.Prelude.{◌≡◌, map, IfOk};
ghost use Rattle.std.specs.Option.{unwrap_or};
ghost use Rattle.text.specs.Words.{words_of};
ghost use Rattle.topology.specs.declared.lines.Line.TheVariants.{Unknown};
ghost use Rattle.script.specs.Halls.{line_by};
ghost use Rattle.script.specs.Lines.{lines_of};

use super::lines::{Said, each_line};
use std::alloc::{AllocError, Global};
use text::number;
use text::parting::words;
use topology::lines::Line;

// What the lines of a hall file say.
pub fn lines_of(heap: Global, text: &[u8]) -> Result<Vec<Line>, AllocError>
    ensures { IfOk result (λ v. v.items ≡ map (λ line. line_by (words_of line)) (lines_of text.now)) }
{
    each_line(heap, text)
}

// What a line says: its words are parted by one space each.
impl Said for Line {
    ghost by = { line_by };

    fn said(line: &[u8]) -> Line {
        // a fourth word is enough to see that there are too many
        let mut room = [line; 4];
        told(words(line, &mut room)).unwrap_or(Line::Unknown)
    }
}

// What words say: none where they are no line of the format.
fn told(words: &[&[u8]]) -> Option<Line>
    ensures { unwrap_or result Unknown ≡ line_by (map (λ w. w.now) words.now) }
{
    match words {
        [b"most", n] => Some(Line::Most(number(n)?)),
        [b"lamp", n] => Some(Line::Lamp(number(n)?)),
        [b"wire", a, b] => Some(Line::Wire(number(a)?, number(b)?)),
        _ => None,
    }
}
