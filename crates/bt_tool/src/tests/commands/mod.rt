//! The worked cases of each command, in tables.

mod bamtobed_tests;
mod command_tests;
mod genomecov_tests;
mod intersect_tests;
mod maskfasta_tests;
mod subtract_tests;
