//! What the program `dnssec_check` reads: its files, what opens the messages in them, and what is at fault in them.
#![tactic(auto)]

pub use fault_line::FaultLine;
pub use files::anchors::anchors_in;
pub use files::answers::{answers_fault, answers_in};
pub use files::capture::{FramedEvidence, evidence_in, framed_evidence_in, frames, message_of};
pub use files::text::{FromText, text_in};
pub use inputs::Inputs;
pub use laws::one_list_of_macs_or_fault;
pub use opening::{Opening, RequestMacs, opening_in};
pub use status::{Fault, InputFile, Place, Refusal, Status};

mod fault_line;
mod files;
mod inputs;
mod laws;
mod opening;
mod status;
