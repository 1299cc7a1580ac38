// Places that are named in any order, once or more often, as those that a lamp is wired to.
#![tactic(auto)]

ghost use Rattle.std.specs.Prelude.{◌≡◌, IfOk};
ghost use Rattle.places.specs.Places.{rising_of, RisingAndWhole};

use std::alloc::{AllocError, Global};

// As many places as there are, but no fewer than this, are sorted in among them at a time.
const PART: usize = 1024;

// The places that are named, by rising place, each once.
pub fn rising(heap: Global, named: &[u32]) -> Result<Vec<u32>, AllocError>
    ensures { IfOk result (λ places. places.items ≡ rising_of named.now) }
{
    let mut places = Vec::new(heap);
    let mut left = named;
    // part by part, so that a place that is named again and again takes no room
    while !left.is_empty() {
        let (part, behind) = left.split_at(left.len().min(places.len().max(PART)));
        places.extend_from_slice(part)?;
        places.sort_unstable();
        places.dedup();
        left = behind;
    }
    Ok(places)
}

// The places of a site rise, and are those that were named and no others.
pub fn places_are_those_named()
    ensures { RisingAndWhole }
{}
