// A memory: tellings one after the other, 28 bytes each, in bytes that somebody lends.
ghost use Rattle.std.specs.Prelude.{◌≡◌, ◌*◌, ◌/◌, length, if◌then◌else◌, Some, None, Ok, Err, nat_lt};
ghost use Rattle.telling.specs.declared.refusal.Refusal.TheVariants.{Memory};
ghost use Rattle.telling.specs.Layout.{bytes_of, telling_of, part_of, stored};
ghost use Rattle.telling.specs.Laws.{PartsApart};

use super::refusal::Refusal;
use super::{PART, Telling};

// Where the k-th part of a memory of so many bytes begins; a memory with no such part is refused.
fn start_of(bytes: usize, k: usize) -> Result<usize, Refusal>
    ensures { result ≡ (if nat_lt k (bytes / 28) then Ok (28 * k) else Err Memory) }
{
    if k >= bytes / PART {
        return Err(Refusal::Memory);
    }
    Ok(PART * k)
}

impl Telling {
    // The telling in the k-th part of a memory; none where the memory has no such part.
    pub fn load(memory: &[u8], k: usize) -> Option<Telling>
        ensures { result ≡ (if nat_lt k (length memory.now / 28) then Some (telling_of (part_of memory.now k)) else None) }
    {
        let start = start_of(memory.len(), k).ok()?;
        Some(Telling::from_part(&memory[start..start + PART]))
    }

    fn put(self, part: &mut [u8])
        requires { length part.old ≡ 28 }
        ensures { part.new ≡ bytes_of self }
    {
        part.copy_from_slice(&self.to_part());
    }

    // Writes the telling into the k-th part of a memory; one with no such part is refused, and nothing is written.
    pub fn store(self, memory: &mut [u8], k: usize) -> Result<(), Refusal>
        ensures test { result ≡ (if nat_lt k (length memory.old / 28) then Ok tt else Err Memory) }
        ensures after { memory.new ≡ (if nat_lt k (length memory.old / 28) then stored memory.old k self else memory.old) }
    {
        let start = start_of(memory.len(), k)?;
        self.put(&mut memory[start..start + PART]);
        Ok(())
    }
}

// A telling that was stored is loaded back, and every other part of the memory is as it was.
pub fn parts_apart()
    ensures { PartsApart }
{}
