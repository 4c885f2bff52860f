//! What is written of a record and its hits.

pub(crate) mod pieces;
pub(crate) mod shape;
pub(crate) mod source_record;
pub(crate) mod unmatched;
pub(crate) mod writing;
