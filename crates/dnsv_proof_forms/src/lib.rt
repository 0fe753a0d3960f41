//! What the NSEC and NSEC3 records of one chain of a zone say, and which of them prove that a name or a type isn't there
//! (RFC 4035 5.4, RFC 5155 8).
//!
//! Records are known by their places here, and nothing is asked of who signed them: `dnsv_denial` gathers those that a
//! zone itself signed under a trusted key, and looks for the first proof among them.
#![tactic(auto)]

pub use forms::cuts::{opt_out, unsigned_delegation};
pub use forms::denial::Denial;
pub use forms::ends::Places;
pub use forms::places::{no_data, no_name};
pub use forms::proof_form::{ProofForm, WildcardParts, form_places};
pub use forms::proof_part::{PartName, PartRelation, ProofPart, form_parts, next_closer};
pub use forms::wildcard_answer::{no_closer, opts_out_next_closer};
pub use order::rising;
pub use question_hashes::Hashes;
pub use records::chain_kind::ChainKind;
pub use records::chain_records::ChainRecords;
pub use records::entry::{Nsec3Entry, NsecEntry};
pub use records::hashed_records::HashedRecords;
pub use records::name_hashes::NameHashes;
pub use records::nsec3_entries::Nsec3Entries;
pub use records::parameters::{OrderedParameters, parameters_in_order};
pub use words::all::places_saying;
pub use words::asked::{AskedName, AskedTypes, AskedWord};
pub use words::said::{has_encloser, needs_none};
pub use words::sources::{is_opt_out_source, is_source};

mod forms;
mod order;
mod question_hashes;
mod records;
mod words;
