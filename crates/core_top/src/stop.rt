// Why a call ends before its work is done.
use crate::answers::Reply;
use std::alloc::AllocError;

/// Why a step goes no further.
#[derive(Clone, Copy, Debug)]
pub(crate) enum Stop {
    /// This reply is due.
    Said(Reply),
    /// Memory ran out.
    NoMemory,
}

impl From<AllocError> for Stop {
    ghost use Rattle.std.specs.Prelude.{◌≡◌};
    ghost use Rattle.core_top.specs.declared.stop.Stop.TheVariants.{NoMemory};

    ghost from_gives = { λ _ stop. stop ≡ NoMemory };

    fn from(_: AllocError) -> Stop {
        Stop::NoMemory
    }
}
