//! Which records of one chain make a form of proof.
pub mod by_wildcard;
pub mod cuts;
pub mod denial;
pub mod end_limits;
pub mod ends;
pub mod missing_type;
pub mod places;
pub mod proof_form;
pub mod proof_part;
pub mod unsigned;
pub mod wildcard_answer;
