// A script carried out, and what is printed for it.
ghost use Rattle.std.specs.Prelude.{◌≡◌, true, IfOk, string_bytes, OnOk};
ghost use Rattle.topology.specs.Reading.{hall_of};
ghost use Rattle.network.specs.Stands.{Becomes};
ghost use Rattle.network.specs.Effects.{performed};
ghost use Rattle.network.specs.Carried.{is_roomy};
ghost use Rattle.script.specs.Shows.{lamp_line, show_text, answer_text};

use super::answers::lamp_text;
use network::commands::Command;
use network::state::State;
use std::alloc::{AllocError, Global};
use std::io;
use telling::refusal::Refusal;
use topology::hall::Topology;

// The line of a lamp, where there is one.
// No struct for `hall` and `state`: the words are lent by the caller, and what joins them in `network` is made for one command.
fn lamp_line(heap: Global, hall: &Topology, state: &State, place: u32) -> Result<String, AllocError>
    ensures { IfOk result (λ t. string_bytes t ≡ lamp_line hall.now state.now place) }
{
    match state.numbers_at(hall, place) {
        Some(numbers) => lamp_text(heap, place, numbers),
        None => Ok(String::new(heap)),
    }
}

// The numbers of all lamps, in order of places.
pub fn show_text(heap: Global, hall: &Topology, state: &State) -> Result<String, AllocError>
    ensures { IfOk result (λ t. string_bytes t ≡ show_text hall.now state.now) }
{
    let mut text = String::new(heap);
    for site in hall.sites() {
        let line = lamp_line(heap, hall, state, site.own().place)?;
        text.push_str(line.as_str())?;
    }
    Ok(text)
}

// All that is printed for a command, by whether it was refused.
pub fn answer_text(
    heap: Global,
    hall: &Topology,
    state: &State,
    command: Command,
    answer: Result<(), Refusal>,
) -> Result<String, AllocError>
    ensures { IfOk result (λ t. string_bytes t ≡ answer_text hall.now state.now command answer) }
{
    if let Err(refusal) = answer {
        return format!(in heap; "{refusal}\n");
    }
    match command {
        Command::Show => show_text(heap, hall, state),
        _ => Ok(String::new(heap)),
    }
}

// Says on standard error how far a script has come, some fifty times in all.
fn report(rt: &HostRuntime, done: usize, all: usize) {
    if done % (all / 50 + 1) == 0 || done == all {
        // a report that cannot be written is no reason to stop
        let _ = eprintln!(rt; "hall: {done} of {all} lines");
    }
}

// Carries out a script, command by command, and prints what there is to be printed, before the next one is looked at.
pub fn perform(
    rt: &HostRuntime,
    hall: &Topology,
    state: &mut State,
    script: &[Command],
    progress: bool,
) -> io::Result<()>
    ensures { OnOk result ((is_roomy (hall_of hall.now) state.old ≡ true → Becomes (hall_of hall.now) state.old state.new (performed (hall_of hall.now) hall.now.sites.items script.now))) }
{
    for (k, command) in script.iter().enumerate() {
        let answer = state.carry_out(rt.alloc(), hall, *command)?;
        rt.print(answer_text(rt.alloc(), hall, state, *command, answer)?)?;
        if progress {
            report(rt, k + 1, script.len());
        }
    }
    Ok(())
}
