//! DNS messages (RFC 1035): the octets of one message, and the messages of a stream.
#![tactic(auto)]

pub use errors::{DecodeError, NameFault, ReadError};
pub use laws::{
    message_or_fault, messages_fit, no_fault_of_a_message, no_fault_of_memory, one_encoding,
    one_fault, one_message, one_tail, the_encoding_is_the_message,
};
pub use message::Message;
pub use name_ref::by_wire::NameRefByWire;
pub use name_ref::{NameRef, name_ref_at};
pub use number::{Class, Flags};
pub use rdata_ref::{RdataOctets, RdataRef, rdata_ref_at};
pub use record::{Question, Record, Section};
pub use streams::capture::{one_answer, one_reading, read_capture};
pub use streams::counted::Counted;
pub use streams::file::read_all;
pub use streams::framer::{Framer, any_cutting};

mod encode;
mod errors;
mod laws;
mod message;
mod name_at;
mod name_ref;
mod number;
mod rdata;
mod rdata_ref;
mod record;
mod section;
mod streams;

/// How many octets a file may have.
pub const FILE_LIMIT: usize = 1_073_741_824;
