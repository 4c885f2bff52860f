//! A stream, which can be read only once.

pub(crate) mod keeping;
pub(crate) mod pouring;
#[cfg(test)]
mod tests;
