// Why a reading ends before it is whole.
use crate::fault::Fault;
use std::alloc::{AllocError, AllocFailed};

#[derive(Clone, Copy)]
pub(crate) enum Stop {
    At(Fault),
    NoMemory,
}

impl From<Fault> for Stop {
    fn from(fault: Fault) -> Stop {
        Stop::At(fault)
    }
}

impl From<AllocError> for Stop {
    fn from(_error: AllocError) -> Stop {
        Stop::NoMemory
    }
}

impl<T: Drop> From<AllocFailed<T>> for Stop {
    fn from(_error: AllocFailed<T>) -> Stop {
        Stop::NoMemory
    }
}
