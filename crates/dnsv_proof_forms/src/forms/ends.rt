//! Where the search for a name ends: the closest encloser, and the next closer name that isn't there.
ghost use Rattle.std.specs.Prelude.{◌≡◌, ◌↔◌, ◌++◌, ◌<◌, [], ◌∷◌, IsTrue, MatchOption};
ghost use Rattle.dnsv_zones.specs.forms.Forms.{IsAbove, EndsAt};
ghost use Rattle.dnsv_zones.specs.forms.RecordWords.{words};
ghost use Rattle.dnsv_proof_forms.specs.forms.EndPlace.{end_places, ShowsEnd};
ghost use Rattle.dnsv_proof_forms.specs.words.ChainSaid.{chain_said, HasHashes};

use crate::records::chain_records::ChainRecords;
use crate::words::asked::AskedName;
use crate::words::said::{absent, encloser, needs_none};
use arrayvec::ArrayVec;
use dnsv_names::Name;

/// The places of the records that prove a denial, in the order of its form's parts.
pub type Places = ArrayVec<usize, 3>;

/// The records that show where the search for a name ends, by their places.
#[derive(Clone, Copy)]
pub struct EndPlaces {
    /// The record that shows the closest encloser; `None` where that needs none.
    pub encloser: Option<usize>,
    /// The record that shows that the next closer name is no node.
    pub next_closer: usize,
}

impl EndPlaces {
    /// The places, and behind them one more.
    pub fn with(self, last: usize) -> Places
        ensures { result.items ≡ end_places self ++ last ∷ [] }
    {
        let mut places = ArrayVec::new();
        if let Some(encloser) = self.encloser {
            places.push(encloser);
        }
        places.push(self.next_closer);
        places.push(last);
        places
    }
}

/// Whether so many of the name's rightmost labels are a proper ancestor of it within the zone.
pub fn is_above(apex: &Name, name: &Name, labels: usize) -> bool
    ensures above { IsTrue result ↔ IsAbove apex.now name.now labels }
    ensures at_most_127 { IsTrue result → labels < 127 }
{
    if labels >= name.labels() {
        return false;
    }
    name.suffix(labels).is_at_or_below(apex)
}

/// The first records that show the name's so many labels to be its closest encloser (RFC 4035 5.4, RFC 5155 8.3), or
/// `None` where none do or these labels are no proper ancestor of the name within the zone.
pub fn end_at(
    apex: &Name,
    name: &Name,
    labels: usize,
    records: &ChainRecords<'_>,
) -> Option<EndPlaces>
    requires { HasHashes name.now records.now }
    ensures { MatchOption result
        (¬ EndsAt (words (chain_said apex.now records.now)) apex.now name.now labels)
        (ShowsEnd (chain_said apex.now records.now) apex.now name.now labels) }
{
    if !is_above(apex, name, labels) {
        return None;
    }
    if needs_none(apex, name, labels, records) {
        let next_closer = absent(name, AskedName::Above(labels + 1), records)?;
        return Some(EndPlaces {
            encloser: None,
            next_closer,
        });
    }
    let encloser = encloser(name, labels, records)?;
    let covering = absent(name, AskedName::Above(labels + 1), records)?;
    Some(EndPlaces {
        encloser: Some(encloser),
        next_closer: covering,
    })
}
