//! Places of keys.
ghost use Rattle.std.specs.Prelude.{◌↔◌, ℕ, Contains, IsTrue};
ghost use Rattle.std.specs.List.Sorted.{IsStrictlyIncreasing};
ghost use Rattle.dnsv_zone_faults.specs.Dnskeys.PlaceSearch.{HasOther};

use std::marker::Model;

/// The places of some keys among those of their zone, each once and rising.
#[derive(Drop)]
pub struct Places {
    places: Vec<usize>,
}

impl Model for Places {
    ghost use Rattle.std.specs.Prelude.{ℕ, List};
    ghost use Rattle.std.specs.List.Sorted.{IsStrictlyIncreasing};

    ghost Value = { List ℕ };

    ghost view = { λ places. places.places.items };

    ghost invariant = { λ places. IsStrictlyIncreasing places.places.items };
}

impl Places {
    /// These places.
    pub fn of(places: Vec<usize>) -> Places
        ensures rising { IsStrictlyIncreasing result }
        ensures members { (place : ℕ) → Contains result place ↔ Contains places.items place }
    {
        let mut places = places;
        places.sort_unstable();
        places.dedup();
        Places { places }
    }

    /// Whether the place is one of them.
    pub fn has(&self, place: usize) -> bool
        ensures { IsTrue result ↔ Contains self.now place }
    {
        match self.places.binary_search(&place) {
            Ok(_) => true,
            Err(_) => false,
        }
    }

    /// Whether another place is one of them.
    pub fn has_other(&self, place: usize) -> bool
        ensures { IsTrue result ↔ HasOther self.now place }
    {
        if self.places.len() > 1 {
            return true;
        }
        self.places.iter().any(|other| *other != place)
    }
}
