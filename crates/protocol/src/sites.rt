// Making a lamp's site from numbers.
ghost use Rattle.std.specs.Prelude.{◌≡◌, ℕ, ◌<◌, ◌≤◌, false, slice_index_or, length, take, MatchOption, MatchResult};
ghost use Rattle.telling.specs.declared.refusal.Refusal.TheVariants.{Input};
ghost use Rattle.protocol.specs.Wiring.{is_sound, may_wire, rises_from};
ghost use Rattle.protocol.specs.Rows.{places_of, Wire, NoWireTo};
ghost use Rattle.protocol.specs.Rules.{nothing};

use super::facts::{Own, Site, WIRES};
use telling::refusal::Refusal;
use telling::{NOTHING, Telling};

// Whether a lamp may be wired to a place, where the ones before it are below `low`.
fn may_wire(own: Own, low: u32, place: u32) -> bool
    ensures { result ≡ may_wire own low place }
{
    low <= place && place < own.most && place != own.place
}

// Whether a lamp may be wired to these places.
fn rises(own: Own, places: &[u32]) -> bool
    ensures { result ≡ rises_from own 0 places.now }
{
    let mut low = 0;
    for place in places {
        if !may_wire(own, low, *place) {
            return false;
        }
        low = *place + 1;
    }
    true
}

fn padded(places: &[u32]) -> [u32; WIRES]
    requires { length places.now ≤ 16 }
    ensures { take (length places.now) result ≡ places.now }
{
    let mut all = [0; WIRES];
    all[0..places.len()].copy_from_slice(places);
    all
}

impl Site {
    // The site of a lamp with these numbers and wires, or refusal 4 where they break a rule.
    pub fn new(own: Own, places: &[u32]) -> Result<Site, Refusal>
        ensures { MatchResult result (λ s. (s.own ≡ own) × (places_of s ≡ places.now)) (λ e. (e ≡ Input) × (is_sound own places.now ≡ false)) }
    {
        let wires = places.len();
        if own.most < 1
            || own.most > 1024
            || own.place >= own.most
            || wires > WIRES
            || !rises(own, places)
        {
            return Err(Refusal::Input);
        }
        let places = padded(places);
        Ok(Site { own, wires, places })
    }

    pub fn own(&self) -> Own
        ensures { result ≡ self.now.own }
    {
        self.own
    }

    // The places that the lamp is wired to, by rising place.
    pub fn places(&self) -> &[u32]
        ensures { result.now ≡ places_of self.now }
    {
        &self.places[0..self.wires]
    }

    // The wire to a place.
    pub fn wire_to(&self, place: u32) -> Option<usize>
        ensures { MatchOption result (NoWireTo self.now place) (λ k. Wire self.now place k) }
    {
        self.places().iter().position(|p| *p == place)
    }

    // What a function gives for each wire; behind the last, zeros.
    // It asks of the function only that it may be called there.
    pub fn by_wire<F: Fn(usize) -> Telling>(&self, of: F) -> [Telling; WIRES]
        requires { (k : ℕ) → k < self.now.wires → F.pre of k }
        ensures wires { (k : ℕ) → k < self.now.wires → F.post of k (slice_index_or result k nothing) }
        ensures behind { (k : ℕ) → self.now.wires ≤ k → slice_index_or result k nothing ≡ nothing }
    {
        let mut all = [NOTHING; WIRES];
        // by index: what an enumerate over iter_mut writes is not known; array::from_fn was tried and got no proof
        for k in 0..self.wires {
            all[k] = of(k);
        }
        all
    }
}
