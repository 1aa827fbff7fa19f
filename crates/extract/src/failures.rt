ghost use Rattle.std.specs.Prelude.{◌≡◌};
ghost use Rattle.extract.specs.declared.failures.Failure.TheVariants.{Refused, Memory};

use refusal::Refusal;
use std::alloc::AllocError;

// Why there is no page: the file is refused, or memory is short.
#[derive(Clone, Copy, Debug)]
pub enum Failure {
    Refused(Refusal),
    Memory(AllocError),
}

impl From<Refusal> for Failure {
    ghost from_gives = { λ why f. f ≡ Refused why };

    fn from(why: Refusal) -> Failure {
        Failure::Refused(why)
    }
}

impl From<AllocError> for Failure {
    ghost from_gives = { λ why f. f ≡ Memory why };

    fn from(why: AllocError) -> Failure {
        Failure::Memory(why)
    }
}
