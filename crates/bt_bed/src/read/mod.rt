//! Records of an input, in order.

pub(crate) mod batch;
pub(crate) mod blocks;
pub(crate) mod cursor;
pub(crate) mod lookahead;
pub(crate) mod records;
pub(crate) mod sorted;
pub(crate) mod sorted_reader;
