// A line, parted into its words.
ghost use Rattle.std.specs.Prelude.{◌≡◌, map, length, take};
ghost use Rattle.text.specs.Words.{words_of};

use super::cut;

// The words of a line, as many as the room holds. The room is lent, since readers that cannot fail have no heap.
pub fn words<'r, 'l>(line: &'l [u8], room: &'r mut [&'l [u8]]) -> &'r [&'l [u8]]
    ensures { map (λ w. w.now) result.now ≡ take (length room.old) (words_of line.now) }
{
    let mut rest = Some(line);
    // by index: it says how many words there are, and what an enumerate over iter_mut writes is not known
    for i in 0..room.len() {
        let Some(line) = rest else {
            return room.split_at(i).0;
        };
        (room[i], rest) = cut(line);
    }
    room
}

#[cfg(test)]
mod tests {
    use super::*;
    use std::test::Fail;

    #[test]
    fn parted(rt: HostRuntime) -> Result<(), Fail> {
        for (line, first) in [
            ("", ["", "-", "-"]),
            ("show", ["show", "-", "-"]),
            ("hear 12", ["hear", "12", "-"]),
            (" hear ", ["", "hear", ""]),
            ("hear 12 4c00", ["hear", "12", "4c00"]),
            ("hear  12", ["hear", "", "12"]),
            ("wire 0 1 2", ["wire", "0", "1"]),
        ] {
            let mut room = [b"-".as_slice(); 3];
            let found = words(line.as_bytes(), &mut room);
            let wanted = first.iter().filter(|word| **word != "-").count();
            assert_eq!(rt; found.len(), wanted, "{}", line);
            for (word, wanted) in found.iter().zip(first) {
                assert_eq!(rt; *word, wanted.as_bytes(), "{}", line);
            }
        }
        Ok(())
    }
}
