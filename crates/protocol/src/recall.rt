// A lamp's memory in bytes that somebody lends, as they are kept while the lamp is off.
ghost use Rattle.std.specs.Prelude.{◌≡◌, ◌*◌, length, IfOk, MatchResult};
ghost use Rattle.protocol.specs.Memories.{taken_of, recollection, Recalls, Holds, RecalledAsStored};

use super::facts::WIRES;
use super::state::Lamp;
use std::alloc::{AllocError, Global};
use telling::refusal::Refusal;
use telling::{NOTHING, PART, Telling};

impl Lamp {
    // Takes what a memory holds for what was heard last. A memory of another size is refused, and zeros are taken.
    pub fn recall(mut self, memory: &[u8]) -> (Lamp, Result<(), Refusal>)
        ensures site { result.0.site ≡ self.site }
        ensures last { result.0.last ≡ self.last }
        ensures refusal { result.1 ≡ taken_of self.site.wires memory.now }
        ensures heard { Recalls (recollection self.site.wires memory.now) result.0.heard self.site.wires }
    {
        if memory.len() != PART * self.site.wires {
            self.heard = [NOTHING; WIRES];
            return (self, Err(Refusal::Memory));
        }
        self.heard = self
            .site
            .by_wire(|k| Telling::load(memory, k).unwrap_or(NOTHING));
        (self, Ok(()))
    }

    // Writes what is remembered into a memory. One of another size is refused, and nothing is written.
    pub fn store(&self, memory: &mut [u8]) -> Result<(), Refusal>
        ensures refusal { result ≡ taken_of self.now.site.wires memory.old }
        ensures after { MatchResult result (λ _. Holds memory.new self.now.heard self.now.site.wires) (λ _. memory.new ≡ memory.old) }
    {
        let wires = self.site.wires;
        if memory.len() != PART * wires {
            return Err(Refusal::Memory);
        }
        for (k, said) in self.heard().iter().enumerate() {
            said.store(memory, k)?;
        }
        Ok(())
    }

    // A memory of just the right size that holds what is remembered.
    pub fn memory(&self, heap: Global) -> Result<Vec<u8>, AllocError>
        ensures { IfOk result (λ m. (length m.items ≡ 28 * self.now.site.wires) × Holds m.items self.now.heard self.now.site.wires) }
    {
        let mut memory = vec![in heap; 0; PART * self.site.wires]?;
        let _ = self.store(memory.as_mut_slice());
        Ok(memory)
    }
}

// What a lamp stored, it recalls.
pub fn recalled_as_stored()
    ensures { RecalledAsStored }
{}
