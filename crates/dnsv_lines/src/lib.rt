//! The lines of an explanation: what each says, its text and its JSON.
//!
//! A `Line` is a fact of the evidence. Its `Sentence` has the words and the fields that stand for it, each field with its
//! key and what it says; the text, the JSON and the RRsets that a line names follow from that.
#![tactic(auto)]

pub use json::sentence::{push_line, push_object};
pub use json::{push_comma, push_name};
pub use line::cut::{Cut, InsecureCase, UnusableDs, WhyUnusable};
pub use line::denial::{Chain, Form, Part, Proof, RecordPlace, Relation, Role};
pub use line::derivation::{KeyName, SignedRrset, Todo, TrustedKeys, Voucher};
pub use line::fault::Reason;
pub use line::fault::denial::parameters::SourceParameters;
pub use line::fault::denial::{
    DenialUnproved, DnameAbove, MissingAnswer, Source, SourceFault, UnusableNsec3, WhyNsec3,
    WhySource,
};
pub use line::fault::key::ShownKey;
pub use line::fault::signature::{
    CloserName, ShownSignature, SignatureFault, SignatureTimes, UnsignedRrset, UntrustedSigner,
    WhySignature,
};
pub use line::fault::zone::{
    DsUnproved, Entry, EntryFault, EntryNumber, KeyWithoutSignature, KeysNotVouched, WhyEntry,
    WhyZone, ZoneFault,
};
pub use line::interval::Interval;
pub use line::place::RrsetPlace;
pub use line::{Kind, Line};
pub use rrsets::push_rrsets;
pub use sentence::Sentence;
pub use sentence::field::{Field, Value};

mod json;
mod line;
mod rrsets;
mod sentence;
