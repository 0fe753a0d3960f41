//! RRsets of the evidence that a table is of.
ghost use Rattle.std.specs.Prelude.{◌≡◌, ◌<◌, length, slice_index_or};
ghost use Rattle.dnsv_canonical.specs.Rrsets.{ReceivedRrset};
ghost use Rattle.dnsv_chain.specs.Signing.{IsOfTable};

use dnsv_canonical::Rrset;
use dnsv_verifier::Table;

/// An RRset of the evidence that a table is of, by its number there, so that the table knows its signatures by theirs.
#[derive(Drop)]
pub struct AnsweredRrset<'t, 'a> {
    pub rrset: &'a Rrset<'a>,
    /// Its number in the evidence, from 1 on.
    pub number: usize,
    pub table: &'t Table<'a>,
}

impl<'t, 'a> AnsweredRrset<'t, 'a> {
    /// The RRset at the place in the table's evidence, from 0 on.
    pub fn at(table: &'t Table<'a>, place: usize) -> AnsweredRrset<'t, 'a>
        requires { place < length table.now.rrsets }
        ensures table { result.table.now ≡ table.now }
        ensures rrset { (other : ReceivedRrset) → slice_index_or table.now.rrsets place other ≡ result.rrset.now }
        ensures its { IsOfTable result }
    {
        let rrset = &table.capture().rrsets()[place];
        AnsweredRrset {
            rrset,
            number: place + 1,
            table,
        }
    }
}
