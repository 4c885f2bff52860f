//! Which records hit one another.

pub(crate) mod hit;
pub(crate) mod hit_rule;
pub(crate) mod started;
