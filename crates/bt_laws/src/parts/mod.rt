//! When a pipeline may divide its inputs, as by chromosome, run a job for each part and concatenate the outputs.

pub mod one_input;
pub mod shards;
pub mod two_inputs;
