// What judging a game comes to.
ghost use Rattle.report.specs.Stopping.{IsNoMemory};

use refusal::Refusal;
use std::alloc::{AllocError, AllocFailed};

// What is printed: what was asked for, or one line that says why not. That line is no error: it is printed as the others are.
#[derive(Drop)]
pub enum Report {
    Listing(String),
    Playbook(Vec<u8>),
    Declined(String),
}

// Why not all rules were judged: the first that was refused, by its number, or want of memory.
#[derive(Clone, Copy)]
pub(crate) enum Stopped {
    RefusedAt(usize, Refusal),
    NoMemory(AllocError),
}

impl From<AllocError> for Stopped {
    ghost from_gives = { λ _ stopped. IsNoMemory stopped };

    fn from(error: AllocError) -> Stopped {
        Stopped::NoMemory(error)
    }
}

impl<T: Drop> From<AllocFailed<T>> for Stopped {
    ghost from_gives = { λ _ stopped. IsNoMemory stopped };

    fn from(failed: AllocFailed<T>) -> Stopped {
        Stopped::NoMemory(AllocError::from(failed))
    }
}
