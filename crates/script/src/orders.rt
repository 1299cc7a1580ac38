// The lines of a script.
ghost use Rattle.std.specs.Prelude.{◌≡◌, [], ◌∷◌, map, codes, IfOk};
ghost use Rattle.std.specs.Option.{unwrap_or};
ghost use Rattle.text.specs.Words.{words_of};
ghost use Rattle.network.specs.declared.commands.Command.TheVariants.{Unknown};
ghost use Rattle.script.specs.Lines.{lines_of};
ghost use Rattle.script.specs.Orders.{field_of, lamp_field_of, set_by, command_by};

use super::lines::{Said, each_line};
use model::Doing;
use network::commands::{Command, Field};
use std::alloc::{AllocError, Global};
use text::number;
use text::parting::words;

// What the lines of a script ask for.
pub fn commands_of(heap: Global, text: &[u8]) -> Result<Vec<Command>, AllocError>
    ensures { IfOk result (λ v. v.items ≡ map (λ line. command_by (words_of line)) (lines_of text.now)) }
{
    each_line(heap, text)
}

// What a line asks for: its words are parted by one space each.
impl Said for Command {
    ghost by = { command_by };

    fn said(line: &[u8]) -> Command {
        // a seventh word is enough to see that there are too many
        let mut room = [line; 7];
        asked(words(line, &mut room)).unwrap_or(Command::Unknown)
    }
}

// What words ask for: none where they are no line of the format.
fn asked(words: &[&[u8]]) -> Option<Command>
    ensures { unwrap_or result Unknown ≡ command_by (map (λ w. w.now) words.now) }
{
    // tried: a line of the format to an arm; where so many branches meet, the check finds no proof
    match words {
        [verb] => alone(verb),
        [verb, n] => with_number(verb, n),
        [verb, first, second] => with_places(verb, first, second),
        [b"set", what @ ..] => set(what),
        _ => None,
    }
}

// A line of one word.
fn alone(verb: &[u8]) -> Option<Command>
    ensures { unwrap_or result Unknown ≡ command_by (verb.now ∷ []) }
{
    match verb {
        b"show" => Some(Command::Show),
        _ => None,
    }
}

// A line of two words.
#[tactic(auto, using(text::proofs::Matches::by_letters))]
fn with_number(verb: &[u8], n: &[u8]) -> Option<Command>
    ensures { unwrap_or result Unknown ≡ command_by (verb.now ∷ n.now ∷ []) }
{
    let n = number(n)?;
    match verb {
        b"fill" => Some(Command::Fill(n)),
        b"work" => Some(Command::Do(Doing::Work(n))),
        b"round" => Some(Command::Round(n)),
        _ => None,
    }
}

// A line of three words.
fn with_places(verb: &[u8], first: &[u8], second: &[u8]) -> Option<Command>
    ensures { unwrap_or result Unknown ≡ command_by (verb.now ∷ first.now ∷ second.now ∷ []) }
{
    let (to, from) = (number(first)?, number(second)?);
    match verb {
        b"hear" => Some(Command::Do(Doing::Hear(to, from))),
        _ => None,
    }
}

// A line that sets something, by the words behind `set`.
fn set(words: &[&[u8]]) -> Option<Command>
    ensures { unwrap_or result Unknown ≡ command_by (codes "set" ∷ map (λ w. w.now) words.now) }
{
    match words {
        [kind, first, second, third] => set_lamp_or_noise(kind, first, second, third),
        [kind, first, second, field, n] => set_telling(kind, first, second, field, n),
        _ => None,
    }
}

// A number of a lamp, or noise on a wire.
#[tactic(auto, using(text::proofs::Matches::by_letters))]
fn set_lamp_or_noise(kind: &[u8], first: &[u8], second: &[u8], third: &[u8]) -> Option<Command>
    ensures { unwrap_or result Unknown ≡ set_by kind.now first.now second.now (third.now ∷ []) }
{
    match (kind, third) {
        (b"lamp", n) => Some(Command::SetLamp(number(first)?, lamp_field(second)?, number(n)?)),
        (b"wire", b"noise") => Some(Command::SetNoise(number(first)?, number(second)?)),
        _ => None,
    }
}

// A number of what a lamp remembers, or of what lies on a wire.
#[tactic(auto, using(text::proofs::Matches::by_letters))]
fn set_telling(kind: &[u8], first: &[u8], second: &[u8], field: &[u8], n: &[u8]) -> Option<Command>
    ensures { unwrap_or result Unknown ≡ set_by kind.now first.now second.now (field.now ∷ n.now ∷ []) }
{
    let (first, second) = (number(first)?, number(second)?);
    let (field, n) = (field_of(field)?, number(n)?);
    match kind {
        b"memory" => Some(Command::SetMemory(first, second, field, n)),
        b"wire" => Some(Command::SetWire(first, second, field, n)),
        _ => None,
    }
}

// A lamp has all fields of a telling but the last.
#[tactic(auto, using(text::proofs::Matches::by_letters))]
fn lamp_field(word: &[u8]) -> Option<Field>
    ensures { result ≡ lamp_field_of word.now }
{
    match word {
        b"given" => None,
        _ => field_of(word),
    }
}

// No TryFrom: the field is of another crate, which has no text.
#[tactic(auto, using(text::proofs::Matches::by_letters))]
fn field_of(word: &[u8]) -> Option<Field>
    ensures { result ≡ field_of word.now }
{
    match word {
        b"best" => Some(Field::Best),
        b"distance" => Some(Field::Distance),
        b"parent" => Some(Field::Parent),
        b"size" => Some(Field::Size),
        b"total" => Some(Field::Total),
        b"number" => Some(Field::Number),
        b"given" => Some(Field::Given),
        _ => None,
    }
}
