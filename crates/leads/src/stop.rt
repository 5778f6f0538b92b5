// Why a line of a script is not done.
use base::refusals::Refusal;
use described::layers::SecondMirror;
use std::alloc::AllocError;
use std::io;
use thiserror::Error;

// The first two are answers: they are printed, and the script goes on.
#[derive(Debug, Drop, Error)]
pub enum Stop {
    #[error(transparent)]
    Refused(#[from] Refusal),
    #[error(transparent)]
    Unsupported(#[from] SecondMirror),
    #[error("expected {0}")]
    Expected(&'static str),
    #[error("there is no memory for one more point")]
    PointMemory,
    #[error(transparent)]
    Memory(#[from(alloc)] AllocError),
    #[error(transparent)]
    Io(#[from] io::Error),
}
