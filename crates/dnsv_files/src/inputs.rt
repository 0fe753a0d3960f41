//! The files that a request reads, as their readers.

use dnsv_message::Counted;

/// The files of a request.
#[derive(Drop)]
pub struct Inputs<R> {
    /// The captured messages.
    pub capture: Counted<R>,
    /// The trust anchors, where they are given.
    pub anchors: Option<Counted<R>>,
    /// The statements, where they are given. They are read where no answers are.
    pub statements: Option<Counted<R>>,
    /// The answers by number, where they are given.
    pub answers: Option<Counted<R>>,
    /// The keys by which the messages were signed, where they are given.
    pub keys: Option<Counted<R>>,
    /// The MACs of the requests, where they are given. They are read where keys are.
    pub macs: Option<Counted<R>>,
    /// The questions, where many are asked.
    pub questions: Option<Counted<R>>,
}
