// A lamp that is talked to over its standard input and output.
#![tactic(auto)]

use console::answers::{Answer, answer_to, text_of};
use console::arguments::site_of;
use console::orders::Order;
use protocol::facts::Site;
use protocol::state::Lamp;
use std::alloc::AllocError;
use std::io::{BufRead, BufReader};
use std::process::ExitCode;
use std::{env, fmt, fs, io};
use telling::fault::Fault;
use telling::refusal::Refusal;
use text::line_of;

const MEMORY: &str = "memory";

const USAGE: &str =
    "lamp takes MOST PLACE NAME NEIGHBOUR.., numbers up to 4294967295 in digits alone: MOST from 1 to 1024, places below MOST, at most 16 neighbours, none of them PLACE";

// Why the program ends early. Neither this, nor what turns into it, nor `main` is shared: each program has its own name and usage.
#[derive(Drop)]
enum Stop {
    Refused(Refusal),
    Failed(io::Error),
}

impl From<io::Error> for Stop {
    fn from(error: io::Error) -> Stop {
        Stop::Failed(error)
    }
}

impl From<AllocError> for Stop {
    fn from(error: AllocError) -> Stop {
        Stop::Failed(io::Error::from(error))
    }
}

impl From<Fault<Refusal>> for Stop {
    fn from(fault: Fault<Refusal>) -> Stop {
        match fault {
            Fault::Refused(refusal) => Stop::Refused(refusal),
            Fault::OutOfMemory => Stop::from(AllocError),
        }
    }
}

impl fmt::Display for Stop {
    fn fmt<W: fmt::Write>(&self, f: &mut fmt::Formatter<W>) -> fmt::Result {
        match self {
            Stop::Refused(refusal) => write!(f, "{refusal} {USAGE}"),
            Stop::Failed(error) => write!(f, "lamp: {error}"),
        }
    }
}

// The reason is told in a line of its own, and the status is all that is left to say.
fn main(rt: HostRuntime) -> ExitCode {
    match run(&rt) {
        Ok(()) => ExitCode::SUCCESS,
        Err(stop) => {
            let _ = eprintln!(rt; "{stop}");
            ExitCode::FAILURE
        }
    }
}

fn run(rt: &HostRuntime) -> Result<(), Stop> {
    let lamp = wake(rt, Lamp::new(site(rt)?))?;
    let lamp = talk(rt, lamp)?;
    let memory = lamp.memory(rt.alloc())?;
    fs::write(rt, MEMORY, memory.as_slice())?;
    Ok(())
}

// The site that the arguments behind the program's name tell.
fn site(rt: &HostRuntime) -> Result<Site, Stop> {
    let words = words(rt)?;
    Ok(site_of(rt.alloc(), words.as_slice())?)
}

// An argument that is no text is a bad argument.
// As in hall: no contract could say which words these are, so one function for both would be no plainer.
fn words(rt: &HostRuntime) -> Result<Vec<String>, Stop> {
    match env::args(rt) {
        Ok(words) => Ok(words.skip(1).collect(rt.alloc())?),
        Err(error) => match error.kind() {
            io::ErrorKind::InvalidData => Err(Stop::Refused(Refusal::Input)),
            _ => Err(Stop::Failed(error)),
        },
    }
}

// The lamp with what it remembers from before it was off.
fn wake(rt: &HostRuntime, lamp: Lamp) -> io::Result<Lamp> {
    let (lamp, recalled) = match fs::read(rt, MEMORY) {
        Ok(memory) => lamp.recall(memory.as_slice()),
        Err(_) => (lamp, Err(Refusal::Memory)),
    };
    if let Err(refusal) = recalled {
        say(rt, &lamp, Answer::Refused(refusal))?;
    }
    Ok(lamp)
}

// Answers each line before the next one is read.
fn talk(rt: &HostRuntime, mut lamp: Lamp) -> io::Result<Lamp> {
    let mut input = BufReader::new(rt.alloc(), rt.stdin())?;
    let mut read = Vec::new(rt.alloc());
    // nothing says that an input ends, so the lines are counted
    for _ in 0..u64::MAX {
        read.clear();
        if input.read_until(b'\n', &mut read)? == 0 {
            break;
        }
        let order = Order::read(rt.alloc(), line_of(read.as_slice()))?;
        let (next, answer) = answer_to(lamp, &order);
        lamp = next;
        say(rt, &lamp, answer)?;
    }
    Ok(lamp)
}

fn say(rt: &HostRuntime, lamp: &Lamp, answer: Answer) -> io::Result<()> {
    let text = text_of(rt.alloc(), lamp, answer)?;
    rt.print(text)
}
