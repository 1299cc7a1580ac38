// What a lamp answers to an order, and the text of that.
ghost use Rattle.std.specs.Prelude.{◌≡◌, IfOk, string_bytes};
ghost use Rattle.console.specs.Lines.{meant};
ghost use Rattle.console.specs.Answers.{Answered, heard_as, told_as, shown_as, text_of, frames_text, line_text, frame_text};

use super::orders::Order;
use protocol::state::{Lamp, Numbers};
use std::alloc::{AllocError, Global};
use telling::frame::FRAME;
use telling::refusal::Refusal;
use text::hex_of;

#[derive(Clone, Copy)]
pub enum Answer {
    // something was heard, and nothing is said to that
    Silence,
    Refused(Refusal),
    // a frame for each wire
    Frames,
    // the frame on the wire to a place
    Frame(u32, [u8; FRAME]),
    Numbers(Numbers),
    // nothing was worked out yet
    NotYet,
}

impl From<Result<(), Refusal>> for Answer {
    ghost from_gives = { λ heard answer. answer ≡ heard_as heard };

    fn from(heard: Result<(), Refusal>) -> Answer {
        match heard {
            Ok(()) => Answer::Silence,
            Err(refusal) => Answer::Refused(refusal),
        }
    }
}

impl From<Option<Numbers>> for Answer {
    ghost from_gives = { λ shown answer. answer ≡ shown_as shown };

    fn from(shown: Option<Numbers>) -> Answer {
        shown.map_or(Answer::NotYet, Answer::Numbers)
    }
}

impl Answer {
    // The answer to what lies on the wire to a place; no From, since it takes the place too.
    fn told(place: u32, told: Result<Option<[u8; FRAME]>, Refusal>) -> Answer
        ensures { result ≡ told_as place told }
    {
        match told {
            Ok(Some(frame)) => Answer::Frame(place, frame),
            Ok(None) => Answer::NotYet,
            Err(refusal) => Answer::Refused(refusal),
        }
    }
}

// The lamp after an order, and what it answers.
pub fn answer_to(lamp: Lamp, order: &Order) -> (Lamp, Answer)
    ensures { Answered (meant order.now) lamp result.0 result.1 }
{
    match order {
        Order::Work => (lamp.work(), Answer::Frames),
        Order::Hear(from, Some(frame)) => {
            let (lamp, heard) = lamp.hear(*from, frame.as_slice());
            (lamp, Answer::from(heard))
        }
        Order::Hear(_, None) => (lamp, Answer::Refused(Refusal::Unreadable)),
        Order::Tell(to) => (lamp, Answer::told(*to, lamp.tell(*to))),
        Order::Show => (lamp, Answer::from(lamp.shown())),
        Order::Unknown => (lamp, Answer::Refused(Refusal::Input)),
    }
}

// All that is printed for an answer: lines that each end in a line feed. No Display: some are of the lamp, and not of the answer.
pub fn text_of(heap: Global, lamp: &Lamp, answer: Answer) -> Result<String, AllocError>
    ensures { IfOk result (λ t. string_bytes t ≡ text_of lamp.now answer) }
{
    match answer {
        Answer::Frames => frames_text(heap, lamp),
        _ => line_text(heap, answer),
    }
}

fn frames_text(heap: Global, lamp: &Lamp) -> Result<String, AllocError>
    ensures { IfOk result (λ t. string_bytes t ≡ frames_text lamp.now) }
{
    let mut text = String::new(heap);
    for place in lamp.places() {
        let line = line_text(heap, Answer::told(*place, lamp.tell(*place)))?;
        text.push_str(line.as_str())?;
    }
    Ok(text)
}

fn line_text(heap: Global, answer: Answer) -> Result<String, AllocError>
    ensures { IfOk result (λ t. string_bytes t ≡ line_text answer) }
{
    match answer {
        Answer::Silence | Answer::Frames => Ok(String::new(heap)),
        Answer::Refused(refusal) => format!(in heap; "{refusal}\n"),
        Answer::Frame(place, frame) => frame_text(heap, place, &frame),
        Answer::Numbers(numbers) => format!(in heap; "{numbers}\n"),
        Answer::NotYet => String::from_str(heap, "none\n"),
    }
}

// No Display, which would have to write digit by digit: the digits are made first.
fn frame_text(heap: Global, place: u32, frame: &[u8]) -> Result<String, AllocError>
    ensures { IfOk result (λ t. string_bytes t ≡ frame_text place frame.now) }
{
    let hex = hex_of(heap, frame)?;
    format!(in heap; "{place} {hex}\n")
}
