// What has to be right of the lines of a hall file before sites are made.
ghost use Rattle.std.specs.Prelude.{◌≡◌, ◌↔◌, ℕ, ◌+◌, length, IsOk, MatchOption, MatchResult};
ghost use Rattle.std.specs.List.{All};
ghost use Rattle.topology.specs.Files.{fits, Fit};
ghost use Rattle.topology.specs.Checks.{Misfit, Headed, Apart, Again, Named, RightEnds};

use super::fault::{Reason, Refused};
use super::lines::Line;

// Whether a line fits behind the one before it.
fn fits(before: Line, line: Line) -> bool
    ensures { result ≡ fits before line }
{
    match line {
        Line::Lamp(_) => !matches!(before, Line::Wire(_, _)),
        Line::Wire(_, _) => true,
        Line::Most(_) | Line::Unknown => false,
    }
}

// The first line behind which the next one does not fit.
fn misfit(lines: &[Line]) -> Option<usize>
    ensures { MatchOption result (Fit lines.now (length lines.now)) (λ i. Misfit lines.now (i + 1)) }
{
    lines.windows(2).position(|pair| !fits(pair[0], pair[1]))
}

// The most lamps, where the lines stand in order and it is a number that may be.
pub(crate) fn check_order(lines: &[Line]) -> Result<u32, Refused>
    ensures { MatchResult result (Headed lines.now) (λ _. ((most : ℕ) → Headed lines.now most → ⊥)) }
{
    let [Line::Most(most), ..] = lines else {
        return Err(Refused::at(1, Reason::Misplaced));
    };
    if let Some(i) = misfit(lines) {
        return Err(Refused::at(i + 2, Reason::Misplaced));
    }
    if !(1..=1024).contains(most) {
        return Err(Refused::at(1, Reason::Most));
    }
    Ok(*most)
}

// The first name that stood before.
fn again(names: &[u32]) -> Option<usize>
    ensures { MatchOption result (Apart names.now (length names.now)) (Again names.now) }
{
    names
        .iter()
        .enumerate()
        .position(|(i, name)| names[..i].contains(name))
}

// Lamps stand from the second line on.
pub(crate) fn check_names(most: u32, names: &[u32]) -> Result<(), Refused>
    ensures { IsOk result ↔ Named most names.now }
{
    if names.is_empty() {
        return Err(Refused::of_all(Reason::NoLamps));
    }
    if names.len() > most as usize {
        return Err(Refused::of_all(Reason::TooManyLamps));
    }
    if let Some(i) = again(names) {
        return Err(Refused::at(i + 2, Reason::SameName));
    }
    Ok(())
}

// A wire has its ends at two of so many lamps.
fn check_wire(count: usize, line: Line) -> Result<(), Reason>
    ensures { IsOk result ↔ RightEnds count line }
{
    let Line::Wire(a, b) = line else {
        return Ok(());
    };
    if a as usize >= count || b as usize >= count {
        return Err(Reason::Beyond);
    }
    if a == b {
        return Err(Reason::ToItself);
    }
    Ok(())
}

pub(crate) fn check_wires(count: usize, lines: &[Line]) -> Result<(), Refused>
    ensures { IsOk result ↔ All (RightEnds count) lines.now }
{
    for (i, line) in lines.iter().enumerate() {
        check_wire(count, *line).map_err(|reason| Refused::at(i + 1, reason))?;
    }
    Ok(())
}
