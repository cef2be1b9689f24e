// Why a program ended before the end of its messages.
use std::alloc::AllocError;
use std::io;
use thiserror::Error;
use wire::Refusal;

#[derive(Clone, Copy, Debug, Error)]
pub enum Unplayed {
    // The disc, or the bytes where a message should be, are not taken.
    #[error("refused")]
    Refused(#[from] Refusal),
    // A file cannot be read, or a line cannot be written.
    #[error(transparent)]
    Io(#[from] io::Error),
    // There is no memory for the market or the lines.
    #[error(transparent)]
    Memory(#[from(alloc)] AllocError),
    // The program was not told just a disc and a file of messages.
    #[error("usage: DISC MESSAGES")]
    Usage,
}
