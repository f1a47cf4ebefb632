//! Why a store is not opened as that of a session.

use sqlite_trees::error::StoreError;
use std::alloc::{AllocError, AllocFailed};

/// Why a store is not opened as that of a session.
#[derive(Clone, Copy, Debug, PartialEq, Eq)]
pub enum OpenFault {
    /// Its trees are not those of a session.
    NotASession,
    /// Its session is kept by another version of the format.
    OtherVersion,
    /// It has a row that is not one of a session.
    Damaged,
    /// The store failed, or memory ran out.
    Store(StoreError),
}

impl From<StoreError> for OpenFault {
    ghost use Rattle.std.specs.Prelude.{◌≡◌};
    ghost use Rattle.session_file.specs.declared.fault.OpenFault.TheVariants as fault;

    ghost from_gives = { λ error e. e ≡ fault.Store error };

    fn from(error: StoreError) -> OpenFault {
        OpenFault::Store(error)
    }
}

impl From<AllocError> for OpenFault {
    ghost use Rattle.std.specs.Prelude.{◌≡◌};
    ghost use Rattle.sqlite_trees.specs.declared.error.StoreError.TheVariants.{OutOfMemory};
    ghost use Rattle.session_file.specs.declared.fault.OpenFault.TheVariants as fault;

    ghost from_gives = { λ _ e. e ≡ fault.Store OutOfMemory };

    fn from(_: AllocError) -> OpenFault {
        OpenFault::Store(StoreError::OutOfMemory)
    }
}

impl<T: Drop> From<AllocFailed<T>> for OpenFault {
    ghost use Rattle.std.specs.Prelude.{◌≡◌};
    ghost use Rattle.sqlite_trees.specs.declared.error.StoreError.TheVariants.{OutOfMemory};
    ghost use Rattle.session_file.specs.declared.fault.OpenFault.TheVariants as fault;

    ghost from_gives = { λ _ e. e ≡ fault.Store OutOfMemory };

    fn from(_: AllocFailed<T>) -> OpenFault {
        OpenFault::Store(StoreError::OutOfMemory)
    }
}
