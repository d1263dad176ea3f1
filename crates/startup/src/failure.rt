use journal::store::StoreError;
use std::alloc::AllocError;
use thiserror::Error;

/// Why a line of the keeper's or of the tablet's input is not answered.
#[derive(Debug, Drop, Error)]
pub enum Failure {
    #[error(transparent)]
    Memory(#[from] AllocError),
    #[error(transparent)]
    Store(#[from] StoreError),
}
