// The arguments of a lamp's program: MOST, PLACE and NAME, and then the places of its neighbours, in any order.
ghost use Rattle.std.specs.Prelude.{◌≡◌, map, IfOk, vec_items, string_bytes};
ghost use Rattle.std.specs.Option.{option_map};
ghost use Rattle.console.specs.Arguments.{numbers_in, site_from, site_of, SiteOrRefusal};

use places::rising;
use protocol::facts::{Own, Site};
use std::alloc::{AllocError, Global};
use telling::fault::Fault;
use telling::refusal::Refusal;
use text::number;

// The site that a program's words name, behind the program's own name.
pub fn site_of(heap: Global, words: &[String]) -> Result<Site, Fault<Refusal>>
    ensures { SiteOrRefusal (site_of (map string_bytes words.now)) result }
{
    match numbers_of(heap, words)? {
        Some(numbers) => site_from(heap, numbers.as_slice()),
        None => Err(Fault::Refused(Refusal::Input)),
    }
}

// The numbers that words write: none where one of them writes none.
fn numbers_of(heap: Global, words: &[String]) -> Result<Option<Vec<u32>>, AllocError>
    ensures { IfOk result (λ found. option_map vec_items found ≡ numbers_in (map string_bytes words.now)) }
{
    let mut numbers = Vec::new(heap);
    for word in words {
        let Some(n) = number(word.as_bytes()) else {
            return Ok(None);
        };
        numbers.push(n)?;
    }
    Ok(Some(numbers))
}

fn site_from(heap: Global, numbers: &[u32]) -> Result<Site, Fault<Refusal>>
    ensures { SiteOrRefusal (site_from numbers.now) result }
{
    let [most, place, name, named @ ..] = numbers else {
        return Err(Fault::Refused(Refusal::Input));
    };
    let own = Own {
        most: *most,
        place: *place,
        name: *name,
    };
    let places = rising(heap, named)?;
    Ok(Site::new(own, places.as_slice())?)
}

#[cfg(test)]
mod tests {
    use super::*;
    use std::test::Fail;

    fn site(heap: Global, line: &str) -> Result<Result<Site, Fault<Refusal>>, AllocError> {
        let mut words = Vec::new(heap);
        for word in line.split(' ') {
            words.push(String::from_str(heap, word)?)?;
        }
        Ok(site_of(heap, words.as_slice()))
    }

    #[test]
    fn sites(rt: HostRuntime) -> Result<(), Fail> {
        for line in [
            "1 0 7",
            "1024 1023 0 1022",
            "9 4 4294967295 8 0 3 3 8",
            "17 16 1 0 1 2 3 4 5 6 7 8 9 10 11 12 13 14 15 15 0",
        ] {
            assert!(rt; site(rt.alloc(), line)?.is_ok(), "{}", line);
        }
        Ok(())
    }

    #[test]
    fn no_sites(rt: HostRuntime) -> Result<(), Fail> {
        for line in [
            "",
            "9",
            "9 4",
            "9 4 x",
            "9 4 4294967296",
            "9 4 7 ",
            "9 4 7 0 -1",
            // no lamps, and too many
            "0 0 7",
            "1025 4 7",
            // a place beyond, a neighbour beyond, and the lamp itself
            "9 9 7",
            "9 4 7 9",
            "9 4 7 0 4",
            // 17 neighbours
            "18 17 1 0 1 2 3 4 5 6 7 8 9 10 11 12 13 14 15 16",
        ] {
            let answer = site(rt.alloc(), line)?;
            assert!(rt;
                matches!(answer, Err(Fault::Refused(Refusal::Input))),
                "{}",
                line
            );
        }
        Ok(())
    }
}
