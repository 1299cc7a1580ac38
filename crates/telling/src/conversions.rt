// A telling as seven words, and back: no derive writes it.
ghost use Rattle.std.specs.Prelude.{◌≡◌};
ghost use Rattle.telling.specs.Words.{words_of_telling, telling_of_words};

use super::Telling;

impl From<[u32; 7]> for Telling {
    ghost from_gives = { λ words said. said ≡ telling_of_words words };

    fn from(words: [u32; 7]) -> Telling {
        let [best, distance, parent, size, total, number, given] = words;
        Telling {
            best,
            distance,
            parent,
            size,
            total,
            number,
            given,
        }
    }
}

impl From<Telling> for [u32; 7] {
    ghost from_gives = { λ said words. words ≡ words_of_telling said };

    fn from(said: Telling) -> [u32; 7] {
        [
            said.best,
            said.distance,
            said.parent,
            said.size,
            said.total,
            said.number,
            said.given,
        ]
    }
}
