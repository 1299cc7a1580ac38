// The lamps that lines describe, and their sites.
ghost use Rattle.std.specs.Prelude.{◌≡◌, false, IfOk, MatchOption};
ghost use Rattle.protocol.specs.Wiring.{is_sound};
ghost use Rattle.topology.specs.Files.{names_in, ends_at, places_at};
ghost use Rattle.topology.specs.Checks.{Checked, AllSound, OfLamp, Stands};
ghost use Rattle.topology.specs.Plans.{plan_props};

use super::lines::Line;
use places::rising;
use protocol::facts::{Own, Site};
use std::alloc::{AllocError, Global};

// The names of the lamps, in order of places.
pub(crate) fn names_in(heap: Global, lines: &[Line]) -> Result<Vec<u32>, AllocError>
    ensures { IfOk result (λ names. names.items ≡ names_in lines.now) }
{
    lines
        .iter()
        .filter_map(|line| match line {
            Line::Lamp(name) => Some(*name),
            _ => None,
        })
        .collect(heap)
}

// Lines of a hall file that passed each check, the most lamps and the lamps' names.
#[derive(Clone, Copy)]
pub(crate) struct Plan<'a> {
    pub(crate) most: u32,
    pub(crate) names: &'a [u32],
    pub(crate) lines: &'a [Line],
    ghost checked: { Checked lines.now most names.now } by { Prim.hlevel plan_props },
}

impl Plan<'_> {
    // The places at the other ends of a lamp's wires, as they are named.
    fn ends_at(&self, heap: Global, place: u32) -> Result<Vec<u32>, AllocError>
        ensures { IfOk result (λ ends. ends.items ≡ ends_at place self.now.lines.now) }
    {
        self.lines
            .iter()
            .filter_map(|line| match *line {
                Line::Wire(a, b) if a == place => Some(b),
                Line::Wire(a, b) if b == place => Some(a),
                _ => None,
            })
            .collect(heap)
    }

    // The site of a lamp with these numbers, where it is sound.
    fn site_of(&self, heap: Global, own: Own) -> Result<Option<Site>, AllocError>
        ensures { IfOk result (λ found. MatchOption found
            (is_sound own (places_at own.place self.now.lines.now) ≡ false)
            (OfLamp own self.now.lines.now)) }
    {
        let ends = self.ends_at(heap, own.place)?;
        let places = rising(heap, ends.as_slice())?;
        Ok(Site::new(own, places.as_slice()).ok())
    }

    // The sites of all lamps, where each is sound.
    pub(crate) fn sites(&self, heap: Global) -> Result<Option<Vec<Site>>, AllocError>
        ensures { IfOk result (λ found. MatchOption found
            (AllSound self.now.most self.now.names.now self.now.lines.now → ⊥)
            (λ sites. Stands self.now.most self.now.names.now self.now.lines.now sites.items)) }
    {
        let mut sites = Vec::new(heap);
        for (i, name) in self.names.iter().enumerate() {
            let own = Own {
                most: self.most,
                place: i as u32,
                name: *name,
            };
            let Some(site) = self.site_of(heap, own)? else {
                return Ok(None);
            };
            sites.push(site)?;
        }
        Ok(Some(sites))
    }
}
