// Parts of lent words, each as long as the others.
ghost use Rattle.std.specs.Prelude.{◌≡◌, ◌+◌, ◌*◌, ◌≤◌, length};
ghost use Rattle.network.specs.Words.{part_in, PartPut};

// One part of N words.
pub(crate) fn part<const N: usize>(words: &[u32], place: usize) -> [u32; N]
    requires { N * place + N ≤ length words.now }
    ensures { result ≡ part_in N words.now place }
{
    let at = N * place;
    let mut part = [0; N];
    part.copy_from_slice(&words[at..at + N]);
    part
}

// Puts N words there.
pub(crate) fn put<const N: usize>(words: &mut [u32], place: usize, part: [u32; N])
    requires { N * place + N ≤ length words.old }
    ensures { PartPut N words.old words.new place part.entry }
{
    let at = N * place;
    words[at..at + N].copy_from_slice(&part);
}
