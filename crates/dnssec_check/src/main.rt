//! `dnssec_check`: what captured DNS messages prove.
#![tactic(auto)]

#[cfg(test)]
mod samples;
#[cfg(test)]
mod tests;

use dnsv_program::exit_status_on;
use std::process::ExitCode;

fn main(rt: HostRuntime) -> ExitCode {
    ExitCode::from(exit_status_on(&rt, &rt.stderr()))
}
