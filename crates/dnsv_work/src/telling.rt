//! How the program tells that it failed, and help.
ghost use Rattle.std.specs.Prelude.{◌≡◌, ◌<◌, ◌⊎◌, IfErr, IfOk, OnOk};
ghost use Rattle.dnsv_message.specs.Streams.Counted.{failures_of};
ghost use Rattle.dnsv_commands.specs.CommandLine.{command_line_code};
ghost use Rattle.dnsv_work.specs.Telling.{HasToldIn, HasWritten, LeavesOutput};
ghost use Rattle.dnsv_files.specs.Status.{outcome_code};
ghost use Rattle.dnsv_files.specs.declared.status.Fault.TheVariants as Fault;
ghost use Rattle.dnsv_files.specs.declared.status.Status.{Status};

use dnsv_commands::CommandLineError;
use dnsv_files::{Fault, Status};
use dnsv_message::Counted;
use std::alloc::Global;
use std::io::Write;

/// Tells why the command line gives no request: help on the output, and anything else on the errors. The answer
/// is the exit status, which is 1 where help can't be written.
pub fn refuse<W: Write, E: Write>(
    alloc: Global,
    output: &mut Counted<W>,
    errors: &mut Counted<E>,
    error: CommandLineError,
) -> u8
    ensures code { (result ≡ command_line_code error) ⊎ ((command_line_code error ≡ 0) × (result ≡ 1)) }
    ensures untouched { (result ≡ 0) ⊎ (output.new ≡ output.old) ⊎ ((command_line_code error ≡ 0) × (result ≡ 1)
        × (failures_of output.old < u64.MAX → failures_of output.old < failures_of output.new)) }
    ensures told { result ≡ 1 → (fault : Fault) × HasToldIn E.contents errors.old errors.new fault
        × LeavesOutput output.old output.new (⊥) fault
        × ((fault ≡ Fault.OutOfMemory) ⊎ ((fault ≡ Fault.WriteFailed) × (command_line_code error ≡ 0))) }
    ensures helped { result ≡ 0 → HasWritten W.contents output.old output.new }
    ensures quiet { result ≡ 0 → errors.new ≡ errors.old }
{
    match error {
        CommandLineError::OutOfMemory => finish(errors, Err(Fault::OutOfMemory)),
        CommandLineError::Help(_) => finish(errors, tell_help(alloc, error, output)),
        CommandLineError::NotText
        | CommandLineError::Misused(_)
        | CommandLineError::Unclear
        | CommandLineError::Undated
        | CommandLineError::TwoLists
        | CommandLineError::AllOfRange
        | CommandLineError::BothKnown => {
            let code = error.code();
            // Nothing is left to tell where the text itself can't be written.
            let _ = errors.write_fmt(error);
            code
        }
    }
}

/// Writes the help that was asked for.
fn tell_help<W: Write>(
    alloc: Global,
    help: CommandLineError,
    output: &mut Counted<W>,
) -> Result<Status, Fault>
    ensures done { IfOk result (λ status. (status ≡ Status.Done)
        × HasWritten W.contents output.old output.new) }
    ensures failed { IfErr result (λ fault. ((fault ≡ Fault.OutOfMemory) × (output.new ≡ output.old))
        ⊎ ((fault ≡ Fault.WriteFailed)
        × (failures_of output.old < u64.MAX → failures_of output.old < failures_of output.new))) }
{
    let text = help.to_string(alloc)?;
    match output.write_all(text.as_bytes()) {
        Ok(()) => Ok(Status::Done),
        Err(_) => Err(Fault::WriteFailed),
    }
}

/// Tells a fault on the errors, in a line. The answer is the exit status.
pub fn finish<E: Write>(errors: &mut Counted<E>, outcome: Result<Status, Fault>) -> u8
    ensures code { result ≡ outcome_code outcome }
    ensures told { IfErr outcome (HasToldIn E.contents errors.old errors.new) }
    ensures quiet { OnOk outcome (errors.new ≡ errors.old) }
{
    match outcome {
        Ok(status) => status.code(),
        Err(fault) => {
            tell(errors, &fault);
            fault.code()
        }
    }
}

/// Writes the line of a fault.
fn tell<E: Write>(errors: &mut Counted<E>, fault: &Fault)
    ensures { HasToldIn E.contents errors.old errors.new fault.now }
{
    // Nothing is left to tell where the line itself can't be written.
    let _ = errors.write_all(fault.line().as_str().as_bytes());
}
