// Why nothing was made: no memory was had, or what was asked for is refused.
use super::refusal::Refusal;
use std::alloc::AllocError;

#[derive(Clone, Copy, PartialEq, Eq, Debug)]
pub enum Fault<R> {
    OutOfMemory,
    Refused(R),
}

impl<R> From<AllocError> for Fault<R> {
    ghost use Rattle.std.specs.Prelude.{◌≡◌};
    ghost use Rattle.telling.specs.declared.fault.Fault.TheVariants.{OutOfMemory};

    ghost from_gives = { λ _ fault. fault ≡ OutOfMemory };

    fn from(_e: AllocError) -> Fault<R> {
        Fault::OutOfMemory
    }
}

// One for each kind of refusal: From<R> for every R would overlap with that of AllocError.
impl From<Refusal> for Fault<Refusal> {
    ghost use Rattle.std.specs.Prelude.{◌≡◌};
    ghost use Rattle.telling.specs.declared.fault.Fault.TheVariants.{Refused};

    ghost from_gives = { λ refusal fault. fault ≡ Refused refusal };

    fn from(refusal: Refusal) -> Fault<Refusal> {
        Fault::Refused(refusal)
    }
}
