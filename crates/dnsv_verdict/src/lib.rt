//! The verdict on a question: what the evidence of a capture proves, from given trust anchors, at a moment
//! (RFC 4035 4.3, 5).
#![tactic(auto)]

pub use at_name::Hope;
pub use at_name::search::Found;
pub use at_name::settling::opt_out_wildcard;
pub use case::Case;
pub use case::open_case::OpenCase;
pub use error::VerdictError;
pub use laws::complete::a_whole_chain_is_told_by_the_verdict;
pub use laws::ways::{a_question_leads_one_way, a_question_stops_at_one_alias};
pub use laws::{
    a_question_has_a_verdict, a_question_has_one_verdict,
    a_question_is_indeterminate_without_an_anchor_above, more_evidence_makes_no_verdict_worse,
    valid_answers_settle_what_depends_on_them,
};
pub use link::{Link, Links};
pub use report::{Judged, Report, validate};
pub use traced::{StoppedWay, Traced};
pub use verdict::Verdict;

mod at_name;
mod case;
mod error;
mod laws;
mod link;
mod report;
mod target;
mod traced;
mod trail;
mod verdict;
mod way;
