//! What a line says.

pub(crate) mod bounds;
pub(crate) mod columns;
pub(crate) mod faults;
pub(crate) mod header;
pub(crate) mod names;
pub(crate) mod packed_name;
pub(crate) mod parsing;
