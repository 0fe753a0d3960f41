//! The library for C: what the program does, over octets in memory and into a buffer of the caller's.
#![tactic(auto)]

mod calls;
mod exports;
mod octets;
mod options;
mod outcome;
mod running;
