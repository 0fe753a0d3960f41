//! What is said of a question at each moment of a range: the verdict with what carries it, and the signatures that
//! derive it.
//!
//! The verifier is asked once for the whole range. The question is judged at the first moment and where a signature
//! begins to be valid or is valid no more, and nowhere else.
#![tactic(auto)]

pub use dated::{DatedSignature, dated_signatures};
pub use kind::kind_word;
pub use moments::Moments;
pub use question::timeline_of_question;
pub use said::Said;
pub use texts::text::{Question, timeline_text};
pub use validity::kind::{Kind, kind_of};

mod dated;
mod dates;
mod judging;
mod kind;
mod moments;
mod question;
mod said;
mod sayer;
mod shown;
mod texts;
mod throughout;
mod validity;
