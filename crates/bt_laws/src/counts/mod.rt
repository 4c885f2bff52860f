//! Laws over positions, pairs and sums.

pub mod depth_sum;
pub mod pair_sides;
pub mod part_bases;
