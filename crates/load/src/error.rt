//! Why a load came to no end.

use smp_mask::SmpError;
use std::alloc::{AllocError, AllocFailed};
use std::io;
use thiserror::Error;

/// Why a workload could not be measured, or a torture came to no end.
#[derive(Debug, Drop, Error)]
pub enum LoadError {
    #[error("{0}")]
    Table(SmpError),
    #[error("no memory")]
    NoMemory,
    #[error("no clock, or nothing to print to")]
    System,
    #[error("no batch was noted")]
    NoBatch,
    #[error("a thread could not be started")]
    NoThread,
    #[error("calls are left in the table")]
    NotDrained,
}

impl From<SmpError> for LoadError {
    fn from(error: SmpError) -> LoadError {
        LoadError::Table(error)
    }
}

impl From<AllocError> for LoadError {
    fn from(_: AllocError) -> LoadError {
        LoadError::NoMemory
    }
}

impl<T: Drop> From<AllocFailed<T>> for LoadError {
    fn from(_: AllocFailed<T>) -> LoadError {
        LoadError::NoMemory
    }
}

impl From<io::Error> for LoadError {
    fn from(_: io::Error) -> LoadError {
        LoadError::System
    }
}
