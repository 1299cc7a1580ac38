// The sequence that a seed begins.
ghost use Rattle.std.specs.Prelude.{◌≡◌, ◌<◌};
ghost use Rattle.network.specs.Sequence.{next_of, draw_at, number_from, after, numbers_drawn};

// Each state is the one before times this,
const FACTOR: u32 = 1_664_525;
// and this, cut to 32 bits.
const SUMMAND: u32 = 1_013_904_223;

#[derive(Drop)]
pub struct Draws {
    pub state: u32,
}

impl Draws {
    // The upper 16 bits of the next state.
    pub(crate) fn draw(&mut self) -> u32
        ensures value { result ≡ draw_at self.new.state }
        ensures next { self.new.state ≡ next_of self.old.state }
        ensures bound { result < 65536 }
    {
        // it wraps on purpose
        self.state = self.state.wrapping_mul(FACTOR).wrapping_add(SUMMAND);
        self.state / 65536
    }

    // Two draws, the first the high half.
    fn number(&mut self) -> u32
        ensures value { result ≡ number_from self.old.state }
        ensures next { self.new.state ≡ after 1 self.old.state }
    {
        let high = self.draw();
        let low = self.draw();
        high * 65536 + low
    }

    // So many of them.
    pub(crate) fn numbers<const N: usize>(&mut self) -> [u32; N]
        ensures value { result ≡ numbers_drawn N self.old.state }
        ensures next { self.new.state ≡ after N self.old.state }
    {
        let mut numbers = [0; N];
        for number in numbers.iter_mut() {
            let drawn = self.number();
            *number = drawn;
        }
        numbers
    }
}
