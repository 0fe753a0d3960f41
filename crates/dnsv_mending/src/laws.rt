//! Laws of prices, of the cheapest way, and of what is kept of zones.
ghost use Rattle.std.specs.Prelude.{◌≡◌, ℕ, List, [], ◌∷◌, Option, Some, None, true, false, length, slice_get};
ghost use Rattle.std.specs.declared.alloc.Global.{Global};
ghost use Rattle.dnsv_lines.specs.declared.line.fault.signature.WhySignature.TheVariants as signature;
ghost use Rattle.dnsv_lines.specs.declared.line.fault.zone.EntryNumber.TheVariants as number;
ghost use Rattle.dnsv_lines.specs.declared.line.fault.zone.WhyEntry.TheVariants as entry;
ghost use Rattle.dnsv_mending.specs.Examples.{early, expired, expired_answer, late, record_at, rrset_lines, signature_at, standby, times, zone_lines};
ghost use Rattle.dnsv_mending.specs.Granted.{AreGranted, IsGranted};
ghost use Rattle.dnsv_mending.specs.InPlace.{IsInPlace, IsRrsetInPlace};
ghost use Rattle.dnsv_mending.specs.Level.{Leveled};
ghost use Rattle.dnsv_mending.specs.Mend.{IsFirstOfLeast, Mended, cheapest};
ghost use Rattle.dnsv_mending.specs.Price.{add, none};
ghost use Rattle.dnsv_mending.specs.Reasons.{HasReason, IsClosed, IsClosedRrset, IsSignedRrset};
ghost use Rattle.dnsv_mending.specs.Rrset.{rrset_ways};
ghost use Rattle.dnsv_mending.specs.Ways.{IsWay};
ghost use Rattle.dnsv_mending.specs.Ways.Thing.{rrset, zone};
ghost use Rattle.dnsv_mending.specs.Zone.{is_zone_trusted, levels_of};
ghost use Rattle.dnsv_mending.specs.declared.facts.signature.RrsetFacts.{RrsetFacts};
ghost use Rattle.dnsv_mending.specs.declared.facts.zone.ZoneFacts.{ZoneFacts};
ghost use Rattle.dnsv_mending.specs.declared.price.Price.{Price};
ghost use Rattle.dnsv_mending.specs.declared.told.Told.{Told};
ghost use Rattle.dnsv_mending.specs.declared.told.Told.TheVariants as told;

/// A law: a sum of prices is that of no faults just where both are.
pub fn a_sum_is_nothing_where_both_are()
    ensures first { (p q : Price) → add p q ≡ none → p ≡ none }
    ensures second { (p q : Price) → add p q ≡ none → q ≡ none }
    ensures both { add none none ≡ none }
{}

/// A law: the cheapest of some ways is the first of the least price, and there is none only of none.
pub fn the_cheapest_is_the_first_of_the_least()
    ensures first { (ways : List Mended) (m : Mended) → cheapest ways ≡ Some m → IsFirstOfLeast m ways }
    ensures none { (ways : List Mended) → cheapest ways ≡ None → ways ≡ [] }
{}

/// A law: what is kept of a zone, or found of an RRset, is one of the single ways to it.
pub fn what_is_kept_is_a_single_way()
    ensures zone { (zones : List ZoneFacts) (n : ℕ) (level : Leveled) (m : Mended) → slice_get (levels_of true zones) n ≡ Some level
        → level.zone ≡ Some m → IsWay zones (zone n) m }
    ensures rrset { (zones : List ZoneFacts) (above : Option Mended) (r : RrsetFacts) (m : Mended)
        → cheapest (rrset_ways (levels_of true zones) above r) ≡ Some m → IsWay zones (rrset r) m }
{}

/// A law: of a zone of which no DNSKEY RRset is trusted, and of an RRset of which no signature is kept as good, a reason is
/// reported, where what is kept is whole.
pub fn what_is_not_trusted_has_a_reason()
    ensures zone { (zones : List ZoneFacts) (n : ℕ) (z : ZoneFacts) (level : Leveled) (m : Mended) → IsClosed zones → slice_get zones n ≡ Some z
        → slice_get (levels_of true zones) n ≡ Some level → level.zone ≡ Some m → is_zone_trusted z ≡ false → HasReason m }
    ensures rrset { (zones : List ZoneFacts) (above : Option Mended) (r : RrsetFacts) (m : Mended) → IsClosed zones → IsClosedRrset zones r
        → cheapest (rrset_ways (levels_of true zones) above r) ≡ Some m → (IsSignedRrset r → ⊥) → HasReason m }
{}

/// A law: a zone for which nothing has to be mended is trusted, and an RRset signed, where what is kept is whole.
pub fn what_costs_nothing_is_trusted()
    ensures zone { (zones : List ZoneFacts) (n : ℕ) (z : ZoneFacts) (level : Leveled) (m : Mended) → IsClosed zones → slice_get zones n ≡ Some z
        → slice_get (levels_of true zones) n ≡ Some level → level.zone ≡ Some m → m.price ≡ none → is_zone_trusted z ≡ true }
    ensures rrset { (zones : List ZoneFacts) (above : Option Mended) (r : RrsetFacts) (m : Mended) → IsClosed zones → IsClosedRrset zones r
        → cheapest (rrset_ways (levels_of true zones) above r) ≡ Some m → m.price ≡ none → IsSignedRrset r }
{}

/// A law: where all lines that are reported of a zone are granted, it is trusted, and so is an RRset signed.
pub fn what_is_told_is_enough()
    ensures zone { (zones : List ZoneFacts) (n : ℕ) (level : Leveled) (m : Mended) (granted : List Told)
        → slice_get (levels_of true zones) n ≡ Some level → level.zone ≡ Some m → AreGranted granted m.chain → AreGranted granted m.own
        → IsGranted zones granted (zone n) }
    ensures rrset { (zones : List ZoneFacts) (above : Option Mended) (r : RrsetFacts) (m : Mended) (granted : List Told)
        → cheapest (rrset_ways (levels_of true zones) above r) ≡ Some m → AreGranted granted m.chain → AreGranted granted m.own
        → IsGranted zones granted (rrset r) }
{}

/// A law: who grants nothing has just the zones that are trusted and the RRsets that are signed, where what is kept is whole.
pub fn who_grants_nothing_has_what_is_trusted()
    ensures zone { (zones : List ZoneFacts) (n : ℕ) (z : ZoneFacts) → IsClosed zones → slice_get zones n ≡ Some z → IsGranted zones [] (zone n)
        → is_zone_trusted z ≡ true }
    ensures rrset { (zones : List ZoneFacts) (r : RrsetFacts) → IsClosed zones → IsClosedRrset zones r → IsGranted zones [] (rrset r)
        → IsSignedRrset r }
{}

/// A law: what is reported of four zones with a break. A key that is rolled over too early doesn't sign; one too late is
/// missing; of a standby key beside one whose signature is over, the signature is reported; and where all signatures are
/// over, that of the DNSKEY RRset comes before the answer's.
pub fn the_break_is_told()
    ensures early { (heap : Global) → zone_lines (early heap) 3 ≡ told.NotSelfSigned (record_at 3 3) ∷ [] }
    ensures late { (heap : Global) → zone_lines (late heap) 3 ≡ told.Entry entry.KeyMissing (number.Ds (record_at 2 1)) ∷ [] }
    ensures standby { (heap : Global) → zone_lines (standby heap) 2 ≡ told.Signature (signature.Expired (times 100)) (signature_at 3 1) ∷ [] }
    ensures expired { (heap : Global) → rrset_lines (expired heap) (expired_answer heap)
        ≡ told.Signature (signature.Expired (times 100)) (signature_at 5 1) ∷ told.Signature (signature.Expired (times 100)) (signature_at 6 1) ∷ [] }
{}

/// A law: what the laws ask of facts is met by those of an example, to whose last zone a way is kept. No clause says that
/// this zone isn't trusted.
pub fn what_is_asked_of_facts_can_be_met()
    ensures closed { (heap : Global) → IsClosed (standby heap) }
    ensures in_place { (heap : Global) → IsInPlace (standby heap) }
    ensures there { (heap : Global) → (level : Leveled) × (m : Mended) × (slice_get (levels_of true (standby heap)) 2 ≡ Some level)
        × (level.zone ≡ Some m) }
{}

/// A law: where facts are in place, something leads to each zone and to each RRset.
pub fn something_always_leads_there()
    ensures zone { (zones : List ZoneFacts) (n : ℕ) (level : Leveled) → IsInPlace zones → slice_get (levels_of true zones) n ≡ Some level
        → (m : Mended) × (level.zone ≡ Some m) }
    ensures rrset { (zones : List ZoneFacts) (above : Mended) (r : RrsetFacts) → IsInPlace zones → IsRrsetInPlace zones (length zones) r
        → (m : Mended) × (cheapest (rrset_ways (levels_of true zones) (Some above) r) ≡ Some m) }
{}
