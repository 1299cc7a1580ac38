// Why there is no topology.
use std::fmt;
use telling::fault::Fault;

#[derive(Clone, Copy, PartialEq, Eq, Debug)]
pub enum Reason {
    // not what may stand there
    Misplaced,
    // none, or more than 1,024 lamps as the most
    Most,
    NoLamps,
    // more lamps than the most
    TooManyLamps,
    // a name that another lamp has
    SameName,
    // a wire to a place where no lamp is
    Beyond,
    // a wire from a lamp to itself
    ToItself,
    // a lamp with more than 16 neighbours
    TooManyWires,
    // lamps with no way between them
    NotJoined,
}

impl Reason {
    ghost use Rattle.std.specs.Prelude.{◌≡◌};
    ghost use Rattle.topology.specs.Reasons.{reason_text};

    // In plain words; beside Display, since it cannot fail.
    pub fn text(self) -> &'static str
        ensures { result.now ≡ reason_text self }
    {
        match self {
            Reason::Misplaced => "a line that may not stand here",
            Reason::Most => "the most lamps are none, or above 1024",
            Reason::NoLamps => "no lamps",
            Reason::TooManyLamps => "more lamps than the most",
            Reason::SameName => "a name that another lamp has",
            Reason::Beyond => "a wire to a place without a lamp",
            Reason::ToItself => "a lamp wired to itself",
            Reason::TooManyWires => "a lamp with more than 16 neighbours",
            Reason::NotJoined => "lamps that do not hang together",
        }
    }
}

impl fmt::Display for Reason {
    ghost use Rattle.std.specs.Prelude.{Some};
    ghost use Rattle.topology.specs.Reasons.{reason_text};

    ghost output = { λ reason. Some (reason_text reason) };

    fn fmt<W: fmt::Write>(&self, f: &mut fmt::Formatter<W>) -> fmt::Result {
        f.write_str(self.text())
    }
}

// What is wrong, and on which line, counted from 1, where it is one line's fault.
#[derive(Clone, Copy, PartialEq, Eq, Debug)]
pub struct Refused {
    pub line: Option<usize>,
    pub reason: Reason,
}

impl Refused {
    pub(crate) fn at(line: usize, reason: Reason) -> Refused {
        Refused {
            line: Some(line),
            reason,
        }
    }

    pub(crate) fn of_all(reason: Reason) -> Refused {
        Refused { line: None, reason }
    }
}

impl fmt::Display for Refused {
    ghost use Rattle.std.specs.Prelude.{Some};
    ghost use Rattle.topology.specs.Reasons.{refused_text};

    ghost output = { λ refused. Some (refused_text refused) };

    fn fmt<W: fmt::Write>(&self, f: &mut fmt::Formatter<W>) -> fmt::Result {
        match self.line {
            Some(line) => write!(f, "line {line}: {}", self.reason),
            None => write!(f, "{}", self.reason),
        }
    }
}

// As for any kind of refusal: From<R> for every R would overlap with that of AllocError.
impl From<Refused> for Fault<Refused> {
    ghost use Rattle.std.specs.Prelude.{◌≡◌};
    ghost use Rattle.telling.specs.declared.fault.Fault.TheVariants as fault;

    ghost from_gives = { λ refused r. r ≡ fault.Refused refused };

    fn from(refused: Refused) -> Fault<Refused> {
        Fault::Refused(refused)
    }
}
