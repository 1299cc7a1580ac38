// Laws of a whole hall.
ghost use Rattle.network.specs.Laws.{RoundsAreRounds, WordsStand};

// What a `round` of a script carries out is a round, whatever its seed.
pub fn rounds_are_rounds()
    ensures { RoundsAreRounds }
{}

// Whatever words are lent, they stand for a net, so what is said of every net that they stand for is said of one at least.
pub fn words_stand()
    ensures { WordsStand }
{}
