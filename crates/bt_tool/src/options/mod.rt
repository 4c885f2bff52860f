//! The words of a command line, by the table of options of their tool.

pub(crate) mod checking;
pub(crate) mod fraction;
pub(crate) mod given;
pub(crate) mod item;
pub(crate) mod names;
pub(crate) mod table;
pub(crate) mod takes;
pub(crate) mod tool;
pub(crate) mod usage;
