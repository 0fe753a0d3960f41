//! A request is run over octets, into the buffer of the caller.
ghost use Rattle.std.specs.Prelude.{◌≡◌};
ghost use Rattle.dnssec_check_c.specs.Ends as specs;
ghost use Rattle.dnssec_check_c.specs.Ends.{Ends, TellsQuestion};
ghost use Rattle.dnssec_check_c.specs.Octets.{files_of};

use crate::octets::Octets;
use crate::outcome::{Outcome, give, refuse};
use dnsv_files::Fault;
use dnsv_message::Counted;
use dnsv_program::{Request, run};
use std::alloc::Global;

/// Runs the request over the octets, and tells how it ends: its text in the buffer and its status, or 10 where the text
/// has more octets than the buffer, or the first fault.
pub fn run_over(
    alloc: Global,
    request: &Request,
    octets: &Octets<'_>,
    buffer: &mut [u8],
    outcome: &mut Outcome,
) -> u32
    ensures ends { Ends request.now (files_of octets.now) buffer.old buffer.new outcome.new result }
    ensures question { TellsQuestion request.now outcome.new }
{
    let mut output = Counted::new(Vec::new(alloc));
    match run(alloc, request, &mut octets.readers(), &mut output) {
        Ok(status) => give(status, output.get_ref().as_slice(), buffer, outcome),
        Err(fault) => refuse(&in_memory(fault), outcome),
    }
}

/// The fault of a run over slices, which are read without fail, into a `Vec`, which takes no octets only where it gets no
/// memory.
fn in_memory(fault: Fault) -> Fault
    ensures { result ≡ specs.in_memory fault }
{
    match fault {
        Fault::WriteFailed => Fault::OutOfMemory,
        Fault::ReadFailed(_) => Fault::OutOfMemory,
        Fault::OutOfMemory | Fault::TooLong(_) | Fault::OpenFailed(_) | Fault::Refused(_, _) => {
            fault
        }
    }
}
