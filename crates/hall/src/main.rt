// A whole hall: reads a hall file and a script, carries the script out, and prints.
#![tactic(auto)]

use network::commands::Command;
use network::state::{NUMBERS_WORDS, State, TELLING_WORDS};
use protocol::facts::WIRES;
use script::halls::lines_of;
use script::orders::commands_of;
use script::performing::perform;
use std::alloc::AllocError;
use std::io::{IsTerminal, Read};
use std::process::ExitCode;
use std::{env, fmt, fs, io};
use telling::fault::Fault;
use telling::refusal::Refusal;
use topology::fault::Refused;
use topology::hall::Topology;

const USAGE: &str = "hall takes FILE, or --progress FILE";

// Why the program ends early. Neither this, nor what turns into it, nor `main` is shared: each program has its own name and usage.
#[derive(Drop)]
enum Stop {
    Arguments,
    Hall(Refused),
    Failed(io::Error),
}

impl From<io::Error> for Stop {
    fn from(error: io::Error) -> Stop {
        Stop::Failed(error)
    }
}

impl From<AllocError> for Stop {
    fn from(error: AllocError) -> Stop {
        Stop::Failed(io::Error::from(error))
    }
}

impl From<Fault<Refused>> for Stop {
    fn from(fault: Fault<Refused>) -> Stop {
        match fault {
            Fault::Refused(refused) => Stop::Hall(refused),
            Fault::OutOfMemory => Stop::from(AllocError),
        }
    }
}

impl fmt::Display for Stop {
    fn fmt<W: fmt::Write>(&self, f: &mut fmt::Formatter<W>) -> fmt::Result {
        let refusal = Refusal::Input;
        match self {
            Stop::Arguments => write!(f, "{refusal} {USAGE}"),
            Stop::Hall(refused) => write!(f, "{refusal} {refused}"),
            Stop::Failed(error) => write!(f, "hall: {error}"),
        }
    }
}

// What the program was asked for.
#[derive(Drop)]
struct Asked {
    path: String,
    progress: bool,
}

// The reason is told in a line of its own, and the status is all that is left to say.
fn main(rt: HostRuntime) -> ExitCode {
    match run(&rt) {
        Ok(()) => ExitCode::SUCCESS,
        Err(stop) => {
            let _ = eprintln!(rt; "{stop}");
            ExitCode::FAILURE
        }
    }
}

fn run(rt: &HostRuntime) -> Result<(), Stop> {
    let asked = arguments(rt)?;
    let hall = hall_of(rt, asked.path.as_str())?;
    let script = script(rt)?;
    let progress = asked.progress || rt.stderr().is_terminal();
    start(rt, &hall, script.as_slice(), progress)
}

// An argument that is no text is a bad argument.
// As in lamp: no contract could say which words these are, so one function for both would be no plainer.
fn words(rt: &HostRuntime) -> Result<Vec<String>, Stop> {
    match env::args(rt) {
        Ok(words) => Ok(words.skip(1).collect(rt.alloc())?),
        Err(error) => match error.kind() {
            io::ErrorKind::InvalidData => Err(Stop::Arguments),
            _ => Err(Stop::Failed(error)),
        },
    }
}

fn arguments(rt: &HostRuntime) -> Result<Asked, Stop> {
    let words = words(rt)?;
    match words.as_slice() {
        [path] if path.as_str() != "--progress" => Ok(Asked {
            path: path.clone()?,
            progress: false,
        }),
        [option, path] if option.as_str() == "--progress" => Ok(Asked {
            path: path.clone()?,
            progress: true,
        }),
        _ => Err(Stop::Arguments),
    }
}

fn hall_of(rt: &HostRuntime, path: &str) -> Result<Topology, Stop> {
    let text = fs::read(rt, path)?;
    let lines = lines_of(rt.alloc(), text.as_slice())?;
    Ok(Topology::of(rt.alloc(), lines.as_slice())?)
}

fn script(rt: &HostRuntime) -> Result<Vec<Command>, Stop> {
    let mut text = Vec::new(rt.alloc());
    rt.stdin().read_to_end(&mut text)?;
    Ok(commands_of(rt.alloc(), text.as_slice())?)
}

// All numbers are 0 at first.
fn start(
    rt: &HostRuntime,
    hall: &Topology,
    script: &[Command],
    progress: bool,
) -> Result<(), Stop> {
    let count = hall.sites().len();
    let slots = WIRES * count;
    let heap = rt.alloc();
    let mut memories = vec![in heap; 0; TELLING_WORDS * slots]?;
    let mut wires = vec![in heap; 0; TELLING_WORDS * slots]?;
    let mut noise = vec![in heap; 0; slots]?;
    let mut lamps = vec![in heap; 0; NUMBERS_WORDS * count]?;
    let mut state = State {
        memories: memories.as_mut_slice(),
        wires: wires.as_mut_slice(),
        noise: noise.as_mut_slice(),
        lamps: lamps.as_mut_slice(),
    };
    perform(rt, hall, &mut state, script, progress)?;
    Ok(())
}
