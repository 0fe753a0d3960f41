//! The first proof of a denial, by a chain, a zone and the evidence.
pub mod chain_proof;
pub mod first_proof;
pub mod numbers;
pub mod proof;
pub mod shown_denial;
pub mod zone_proof;
