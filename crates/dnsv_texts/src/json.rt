//! JSON as the program writes it: one object on one line (RFC 8259).
pub mod checking;
pub mod explaining;
