//! Bytes out: what is put, and what a sink takes.

pub(crate) mod copying;
pub(crate) mod output;
pub(crate) mod putting;
pub(crate) mod write_buffer;
