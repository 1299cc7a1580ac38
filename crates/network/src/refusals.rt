// Which commands are refused.
ghost use Rattle.std.specs.Prelude.{◌≡◌};
ghost use Rattle.model.specs.Halls.{is_wired};
ghost use Rattle.telling.specs.declared.refusal.Refusal.TheVariants.{NoWire};
ghost use Rattle.topology.specs.Reading.{hall_of};
ghost use Rattle.network.specs.Effects.{unless, refusal_of};

use super::commands::Command;
use super::slots::{hangs, slot};
use model::Doing;
use telling::refusal::Refusal;
use topology::hall::Topology;

fn unless(good: bool, refusal: Refusal) -> Result<(), Refusal>
    ensures { result ≡ unless good refusal }
{
    if good { Ok(()) } else { Err(refusal) }
}

fn wired(hall: &Topology, by: u32, of: u32) -> Result<(), Refusal>
    ensures { result ≡ unless (is_wired (hall_of hall.now) by of) NoWire }
{
    slot(hall, by, of).ok_or(Refusal::NoWire)?;
    Ok(())
}

// How a command is refused, where it is.
pub fn refusal_of(hall: &Topology, command: Command) -> Result<(), Refusal>
    ensures { result ≡ refusal_of (hall_of hall.now) command }
{
    match command {
        Command::SetMemory(by, of, _, _) => wired(hall, by, of),
        Command::SetWire(from, to, _, _) => wired(hall, to, from),
        Command::SetNoise(from, to) => wired(hall, to, from),
        Command::SetLamp(place, field, _) => {
            unless(field.is_of_lamp() && hangs(hall, place), Refusal::Input)
        }
        Command::Do(Doing::Work(place)) => unless(hangs(hall, place), Refusal::Input),
        Command::Do(Doing::Hear(by, of)) => wired(hall, by, of),
        Command::Unknown => Err(Refusal::Input),
        Command::Fill(_) | Command::Round(_) | Command::Show => Ok(()),
    }
}
