//! Lines in: from a source to lines.

pub(crate) mod buffered_lines;
pub(crate) mod column_iter;
pub(crate) mod line;
pub(crate) mod line_reader;
pub(crate) mod newline;
pub(crate) mod read_buffer;
pub(crate) mod spill;
pub(crate) mod split;
