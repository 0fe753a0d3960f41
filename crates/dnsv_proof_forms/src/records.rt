//! The records of one chain of a zone, as a proof is looked for among them.
pub mod chain_kind;
pub mod chain_records;
pub mod entry;
pub mod hash_places;
pub mod hashed_records;
pub mod name_hashes;
pub mod nsec3_entries;
pub mod parameters;
