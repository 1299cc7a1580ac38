// Frames: a telling on a wire, between a first byte and a check.
ghost use Rattle.std.specs.Prelude.{◌≡◌};
ghost use Rattle.telling.specs.Layout.{check_of, frame_of};
ghost use Rattle.telling.specs.Laws.{OneFrameEach};
ghost use Rattle.telling.specs.Readings.{told_of};

use super::Telling;
use super::refusal::Refusal;

// How many bytes a frame has.
pub const FRAME: usize = 30;
// The first of them.
const FIRST: u8 = 76;

// Where the last of them stands: the check of all before it.
const CHECK: usize = 29;

// What reading a frame comes to. A rule of the project: it is an enum of its own, and a definition has each case.
#[derive(Clone, Copy, PartialEq, Eq, Debug)]
pub enum Reading {
    Told(Telling),
    Noise,
}

// The sum of the bytes, cut to 8 bits.
fn check_of(bytes: &[u8]) -> u8
    ensures { result ≡ check_of bytes.now }
{
    let mut sum: u8 = 0;
    for byte in bytes {
        sum = sum.wrapping_add(*byte);
    }
    sum
}

// What the bytes on a wire are read to, whatever they are.
impl From<&[u8]> for Reading {
    ghost use Rattle.std.specs.Prelude.{◌≡◌};
    ghost use Rattle.telling.specs.Readings.{reading_of};

    ghost from_gives = { λ frame reading. reading ≡ reading_of frame.now };

    fn from(frame: &[u8]) -> Reading {
        let [FIRST, .., check] = frame else {
            return Reading::Noise;
        };
        if frame.len() != FRAME || *check != check_of(&frame[0..CHECK]) {
            return Reading::Noise;
        }
        Reading::Told(Telling::from_part(&frame[1..CHECK]))
    }
}

impl Reading {
    // The telling that was read, or how noise is refused.
    pub fn told(self) -> Result<Telling, Refusal>
        ensures { result ≡ told_of self }
    {
        match self {
            Reading::Told(telling) => Ok(telling),
            Reading::Noise => Err(Refusal::Unreadable),
        }
    }
}

impl Telling {
    // The frame of this telling. Named as std's `to_be_bytes`: where it is called, `<[u8; FRAME]>::from` reads worse.
    pub fn to_frame(self) -> [u8; FRAME]
        ensures { result ≡ frame_of self }
    {
        let mut frame = [FIRST; FRAME];
        frame[1..CHECK].copy_from_slice(&self.to_part());
        frame[CHECK] = check_of(&frame[0..CHECK]);
        frame
    }
}

// Each telling has exactly one frame that is read, and it is read to that telling.
pub fn one_frame_each()
    ensures { OneFrameEach }
{}
