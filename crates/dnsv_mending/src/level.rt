//! What is kept of a zone, for all that stands on it.
ghost use Rattle.std.specs.Prelude.{◌≡◌, Some, map};
ghost use Rattle.std.specs.Option.{option_map};
ghost use Rattle.dnsv_mending.specs.Level.{zone_above};
ghost use Rattle.dnsv_mending.specs.Level.{seen_level};
ghost use Rattle.dnsv_mending.specs.Mend as mend;
ghost use Rattle.dnsv_mending.specs.Mend.{seen};

use crate::mend::Mend;

/// What is kept of a key of a zone.
#[derive(Debug, Drop)]
pub struct HeldMend {
    /// Whether a trusted DNSKEY RRset holds it.
    pub is_trusted: bool,
    /// The least that has to be mended so that an RRset which holds it is trusted; `None` where none holds it.
    pub mend: Option<Mend>,
}

/// What is kept of a zone, or of another name at or above the name that is asked for.
#[derive(Debug, Drop)]
pub struct Level {
    /// The least that has to be mended so that a DNSKEY RRset of it is trusted; `None` where nothing leads there.
    pub zone: Option<Mend>,
    /// Whether one is.
    pub is_trusted: bool,
    /// Whether it is a known zone with a trust anchor at or above it.
    pub leads: bool,
    /// Its keys, in the order of `ZoneFacts::keys`.
    pub keys: Vec<HeldMend>,
}

/// The zone above, of those from the root down: the last known one with a trust anchor at or above it, or else nothing.
#[tactic(auto, using(crate::proofs::Lists::above_next))]
pub fn zone_above<'a>(levels: &'a [Level], nothing: &'a Mend) -> Option<&'a Mend>
    requires { seen nothing.now ≡ mend.nothing }
    ensures { option_map (λ m. seen m.now) result ≡ zone_above (map seen_level levels.now) }
{
    let mut above = Some(nothing);
    for level in levels {
        if level.leads {
            above = level.zone.as_ref();
        }
    }
    above
}
