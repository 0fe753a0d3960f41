//! NSEC3 records with the hashes of the names that a question asks for.
ghost use Rattle.std.specs.Prelude.{◌≡◌};

use crate::records::nsec3_entries::Nsec3Entries;
use crate::words::asked::AskedName;
use dnsv_names::{Hash20, Name};
use dnsv_records::Nsec3Parameters;

/// NSEC3 records, and the hashes with their parameters of the names that a question asks for (RFC 5155 8).
#[derive(Clone, Copy, Debug)]
pub struct HashedRecords<'a> {
    /// The records.
    pub entries: &'a Nsec3Entries<'a>,
    /// The question's name.
    pub name: &'a Name,
    /// What the hashes are made with.
    pub parameters: &'a Nsec3Parameters<'a>,
    /// The hash of the question's rightmost n labels, for n from 0 on: of the root, and at last of the whole name.
    pub above: &'a [Hash20],
    /// The hash of the wildcard right below the question's rightmost n labels, for n from 0 on.
    pub wildcards: &'a [Hash20],
}

impl HashedRecords<'_> {
    ghost use Rattle.dnsv_proof_forms.specs.records.AskedHash.{hash_of, HasHashesOf};
    ghost use Rattle.dnsv_proof_forms.specs.words.Asked.{asked_name, IsWithin};

    /// The hash of the asked name.
    pub fn hash(&self, asked: AskedName) -> Hash20
        requires within { IsWithin self.now.name.now asked }
        requires hashes { HasHashesOf self.now }
        ensures { result ≡ (hash_of self.now).of (asked_name self.now.name.now asked) }
    {
        match asked {
            AskedName::Above(labels) => self.above[labels],
            AskedName::Wildcard(labels) => self.wildcards[labels],
        }
    }
}
