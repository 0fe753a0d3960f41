//! What the evidence says of a question and of what may answer or deny it, as far as it costs something to mend.
//!
//! Names at or above the name that is asked for are known by their number of labels. RRsets, records and signatures have the
//! numbers of the evidence. A record stands for a proof by its RRset, whether that is signed or not.

pub mod answer;
pub mod cut;
pub mod denial;
pub mod name;
pub mod question;
