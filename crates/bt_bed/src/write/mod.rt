//! Records and intervals as lines.

pub(crate) mod interval_line;
pub(crate) mod putting;
pub(crate) mod writing;
