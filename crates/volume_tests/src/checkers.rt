//! Tests of the checkers: gates, workers that run at the same time, and sweeps that are stepped by hand. Rows of tests/checkers.sh and
//! tests/icheck.sh compare the reports that the program prints.

mod fixtures;
mod gates;
mod sweeps;
