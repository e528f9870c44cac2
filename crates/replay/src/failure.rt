// Why a log isn't replayed to its end.
use std::io;
use thiserror::Error;

#[derive(Debug, Drop, Error)]
pub enum Failure {
    #[error("reading standard input: {0}")]
    Reading(io::Error),
    #[error("writing standard output: {0}")]
    Writing(io::Error),
    #[error("more records than can be numbered")]
    TooManyRecords,
}
