//! The records of zones, gathered from the evidence.
pub mod denial_records;
pub mod expanded;
pub mod gathered;
pub mod kept_chain;
pub mod nsec;
pub mod nsec3;
pub mod secured;
pub mod signers;
pub mod zone_records;
pub mod zones;
