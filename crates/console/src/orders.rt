// The lines that a lamp's program reads.
ghost use Rattle.std.specs.Prelude.{◌≡◌, map, IfOk};
ghost use Rattle.text.specs.Words.{words_of};
ghost use Rattle.console.specs.Lines.{meant, meant_by};

use std::alloc::{AllocError, Global};
use text::parting::words;
use text::{bytes_of, number};

// What a line tells a lamp to do.
#[derive(PartialEq, Eq, Debug, Drop)]
pub enum Order {
    Work,
    // the frame that came from a place; none where its digits write no bytes
    Hear(u32, Option<Vec<u8>>),
    Tell(u32),
    Show,
    // no line of the format: it is answered in its turn as any other is, so an error would only be turned back into this
    Unknown,
}

impl Order {
    // What a line says: its words are parted by one space each.
    pub fn read(heap: Global, line: &[u8]) -> Result<Order, AllocError>
        ensures { IfOk result (λ order. meant order ≡ meant_by (words_of line.now)) }
    {
        // a fourth word is enough to see that there are too many
        let mut room = [line; 4];
        Order::told(heap, words(line, &mut room))
    }

    fn told(heap: Global, words: &[&[u8]]) -> Result<Order, AllocError>
        ensures { IfOk result (λ order. meant order ≡ meant_by (map (λ w. w.now) words.now)) }
    {
        // tried: one arm for all that is unknown; where so many branches meet, the check finds no proof
        match words {
            [b"work"] => Ok(Order::Work),
            [b"show"] => Ok(Order::Show),
            [_] => Ok(Order::Unknown),
            [b"tell", place] => Ok(number(place).map_or(Order::Unknown, Order::Tell)),
            [_, _] => Ok(Order::Unknown),
            [b"hear", place, digits] => match number(place) {
                Some(place) => Ok(Order::Hear(place, bytes_of(heap, digits)?)),
                None => Ok(Order::Unknown),
            },
            [_, _, _] => Ok(Order::Unknown),
            _ => Ok(Order::Unknown),
        }
    }
}

#[cfg(test)]
mod tests {
    use super::*;
    use std::test::Fail;

    #[test]
    fn orders(rt: HostRuntime) -> Result<(), Fail> {
        for (line, order) in [
            ("work", Order::Work),
            ("show", Order::Show),
            ("tell 0", Order::Tell(0)),
            ("tell 4294967295", Order::Tell(4_294_967_295)),
            ("hear 3 4", Order::Hear(3, None)),
            ("hear 3 zz", Order::Hear(3, None)),
        ] {
            assert_eq!(rt;
                Order::read(rt.alloc(), line.as_bytes())?,
                order,
                "{}",
                line
            );
        }
        Ok(())
    }

    #[test]
    fn frames(rt: HostRuntime) -> Result<(), Fail> {
        for (line, place, bytes) in [
            ("hear 3 ", 3, [].as_slice()),
            ("hear 12 4cfe00", 12, [0x4c, 0xfe, 0].as_slice()),
            ("hear 12 4CFe00", 12, [0x4c, 0xfe, 0].as_slice()),
        ] {
            let frame = bytes.to_vec(rt.alloc())?;
            let read = Order::read(rt.alloc(), line.as_bytes())?;
            assert_eq!(rt; read, Order::Hear(place, Some(frame)), "{}", line);
        }
        Ok(())
    }

    #[test]
    fn no_orders(rt: HostRuntime) -> Result<(), Fail> {
        for line in [
            "",
            " ",
            "work ",
            " work",
            "Work",
            "works",
            "work 3",
            "show 3",
            "tell",
            "tell ",
            "tell 5 ",
            "tell  5",
            "tell 4294967296",
            "tell +1",
            "5 tell",
            "hear",
            "hear 3",
            "hear  4c",
            "hear x 4c",
            "hear 3 4c ",
            "hear 3 4c 5",
            "work 3 4c",
        ] {
            assert_eq!(rt;
                Order::read(rt.alloc(), line.as_bytes())?,
                Order::Unknown,
                "{}",
                line
            );
        }
        let no_text = Order::read(rt.alloc(), &[b'w', b'o', b'r', 255])?;
        assert_eq!(rt; no_text, Order::Unknown);
        Ok(())
    }
}
