// Filling: all numbers of a hall are drawn.
ghost use Rattle.network.specs.Parts.{Memories, Wires, Lamps};
ghost use Rattle.network.specs.Effects.{filled, all_filled};
ghost use Rattle.network.specs.Turns.{Turns, TurnsDrawn};

use super::draws::Draws;
use super::lent::Lent;
use model::Doing;
use protocol::state::Numbers;
use telling::Telling;
use telling::frame::Reading;

// Three passes, each of one `if let`: one pass with a closure for that would need its whole clause said of the closure.
impl Lent<'_, '_, '_, '_, '_> {
    // For each hearing, a telling is drawn that the one who hears remembers.
    fn fill_memories(&mut self, doings: &[Doing], draws: &mut Draws)
        ensures { TurnsDrawn self.old self.new draws.old.state draws.new.state (filled Memories doings.now) }
    {
        for doing in doings {
            if let Doing::Hear(by, of) = *doing {
                self.remember(by, of, Telling::from(draws.numbers()));
            }
        }
    }

    // For each hearing, a telling is drawn that lies on a wire between the two; the first place is the teller's here.
    fn fill_wires(&mut self, doings: &[Doing], draws: &mut Draws)
        ensures { TurnsDrawn self.old self.new draws.old.state draws.new.state (filled Wires doings.now) }
    {
        for doing in doings {
            if let Doing::Hear(from, to) = *doing {
                self.lay(from, to, Reading::Told(Telling::from(draws.numbers())));
            }
        }
    }

    // For each work, the lamp's numbers are drawn.
    fn fill_lamps(&mut self, doings: &[Doing], draws: &mut Draws)
        ensures { TurnsDrawn self.old self.new draws.old.state draws.new.state (filled Lamps doings.now) }
    {
        for doing in doings {
            if let Doing::Work(place) = *doing {
                self.note(place, Numbers::from(draws.numbers()));
            }
        }
    }

    // All numbers of memories, wires and lamps, in this order, are drawn from the sequence of a seed.
    pub(crate) fn fill(&mut self, doings: &[Doing], seed: u32)
        ensures { Turns self.old self.new (all_filled doings.now seed) }
    {
        let mut draws = Draws { state: seed };
        self.fill_memories(doings, &mut draws);
        self.fill_wires(doings, &mut draws);
        self.fill_lamps(doings, &mut draws);
    }
}
