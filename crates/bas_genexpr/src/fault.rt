use std::alloc::{AllocError, AllocFailed};

/// Why no body is made of a program.
#[derive(Debug, Drop)]
pub enum GenFault {
    /// A count passes its limit. It tells one more than the limit, and the limit.
    TooLarge { size: u32, limit: u32 },
    /// Memory is wanting.
    Memory,
}

impl From<AllocError> for GenFault {
    ghost use Rattle.std.specs.Prelude.{◌≡◌};
    ghost use Rattle.bas_genexpr.specs.declared.fault.GenFault.TheVariants.{Memory};

    ghost from_gives = { λ _ e. e ≡ Memory };

    fn from(_e: AllocError) -> GenFault {
        GenFault::Memory
    }
}

impl<T: Drop> From<AllocFailed<T>> for GenFault {
    ghost use Rattle.std.specs.Prelude.{◌≡◌};
    ghost use Rattle.bas_genexpr.specs.declared.fault.GenFault.TheVariants.{Memory};

    ghost from_gives = { λ _ e. e ≡ Memory };

    fn from(_e: AllocFailed<T>) -> GenFault {
        GenFault::Memory
    }
}
