//! What is asked of records, and which of a chain is the first that says so.
pub mod all;
pub mod all_among;
pub mod any_name;
pub mod asked;
pub mod first_among;
pub mod nsec;
pub mod nsec3;
pub mod said;
pub mod search;
pub mod sources;
