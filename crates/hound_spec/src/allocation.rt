// Allocations that failed.
ghost use Rattle.std.specs.Prelude.{◌≡◌};
ghost use Rattle.hound_spec.specs.declared.error.Error.TheVariants.{OutOfMemory};

use crate::Error;
use std::alloc::{AllocError, AllocFailed};

/// For `?` on an allocation: `OutOfMemory` in a function that returns an [`Error`].
impl From<AllocError> for Error {
    ghost from_gives = { λ _ r. r ≡ OutOfMemory };

    fn from(_rejected: AllocError) -> Error {
        Error::OutOfMemory
    }
}

/// The same for an allocation that had a value to store, which is dropped.
impl<T: Drop> From<AllocFailed<T>> for Error {
    ghost from_gives = { λ _ r. r ≡ OutOfMemory };

    fn from(_rejected: AllocFailed<T>) -> Error {
        Error::OutOfMemory
    }
}
