//! A question of a case, with what facts about it are found by.
use dnsv_faults::CaseFacts;
use dnsv_names::{Name, RecordType};
use dnsv_proof_forms::Hashes;

/// A question of a case: the name and the type that are asked for.
#[derive(Clone, Copy)]
pub struct AskedQuestion<'s, 'a> {
    pub facts: &'s CaseFacts<'s>,
    pub name: &'s Name,
    pub rtype: RecordType,
    /// For each number of the name's labels, from none on, whether these are the name of a known zone.
    pub known: &'s [bool],
    /// The hashes of the names that are asked for.
    pub hashes: &'s Hashes<'a>,
}
