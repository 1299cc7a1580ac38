// A lamp's numbers as six words, and back: its fields are its own, so it shares no code with a telling.
ghost use Rattle.std.specs.Prelude.{◌≡◌};
ghost use Rattle.protocol.specs.Words.{words_of_numbers, numbers_of_words};

use super::state::Numbers;

impl From<[u32; 6]> for Numbers {
    ghost from_gives = { λ words numbers. numbers ≡ numbers_of_words words };

    fn from(words: [u32; 6]) -> Numbers {
        let [best, distance, parent, size, total, number] = words;
        Numbers {
            best,
            distance,
            parent,
            size,
            total,
            number,
        }
    }
}

impl From<Numbers> for [u32; 6] {
    ghost from_gives = { λ numbers words. words ≡ words_of_numbers numbers };

    fn from(numbers: Numbers) -> [u32; 6] {
        [
            numbers.best,
            numbers.distance,
            numbers.parent,
            numbers.size,
            numbers.total,
            numbers.number,
        ]
    }
}
