//! The trust anchors and the DS records of a zone.

pub mod anchors;
pub mod ds;
