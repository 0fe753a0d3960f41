//! Laws of timelines, whatever is said at moments, and of points of change.
ghost use Rattle.std.specs.Prelude.{◌≡◌, ◌≢◌, ◌↔◌, ◌⊎◌, ◌+◌, ◌-◌, ◌<◌, ◌≤◌, ℕ, Bool, true, List, [], ◌∷◌, Contains};
ghost use Rattle.std.specs.List.{AllByRecursion};
ghost use Rattle.dnsv_records.specs.Rrsig.Time.{seconds_on};
ghost use Rattle.dnsv_timeline.specs.Examples.{ends_before_it_begins, one_second, round_the_clock};
ghost use Rattle.dnsv_timeline.specs.Points.{ArePoints, IsChange, IsValidAt};
ghost use Rattle.dnsv_timeline.specs.Timeline.{AreSameValid, IsTimelineOf};
ghost use Rattle.dnsv_timeline.specs.declared.stretch.Stretch.{Stretch};
ghost use Rattle.dnsv_timeline.specs.declared.times.Times.{Times};

/// A law of timelines: there is exactly one, where it can be decided whether two say the same.
pub fn there_is_one_timeline<S>()
    ensures one { (said : ℕ → S) (from to : ℕ) (stretches others : List (Stretch S))
        → IsTimelineOf said from to stretches → IsTimelineOf said from to others → stretches ≡ others }
    ensures some { (said : ℕ → S) (from to : ℕ) → ((one other : S) → (one ≡ other) ⊎ (one ≢ other)) → from ≤ to
        → (stretches : List (Stretch S)) × IsTimelineOf said from to stretches }
{}

/// A law of timelines: what passes a test at each moment is what passes it in each stretch. So a question that is refused
/// alike throughout is seen from the stretches.
pub fn what_holds_throughout<S>()
    ensures { (said : ℕ → S) (test : S → Bool) (from to : ℕ) (stretches : List (Stretch S))
        → IsTimelineOf said from to stretches
        → (AllByRecursion (λ stretch. test stretch.said ≡ true) stretches
        ↔ ((moment : ℕ) → from ≤ moment → moment ≤ to → test (said moment) ≡ true)) }
{}

/// A law of timelines: where kinds are reported alone, each stretch begins where one of the whole timeline does, and has its
/// kind. So it is the whole timeline, with neighbours of one kind joined.
pub fn kinds_begin_where_stretches_do<S, K>()
    ensures { (said : ℕ → S) (kind : S → K) (from to : ℕ) (stretches : List (Stretch S)) (kinds : List (Stretch K))
        → IsTimelineOf said from to stretches → IsTimelineOf (λ moment. kind (said moment)) from to kinds
        → AllByRecursion (λ each. (stretch : Stretch S) × Contains stretches stretch
        × (stretch.from ≡ each.from) × (kind stretch.said ≡ each.said)) kinds }
{}

/// A law of points: from one of them to before the next, the same signatures are valid.
pub fn nothing_changes_between_points()
    ensures { (from to : ℕ) (signatures : List Times) (points : List ℕ) (moment later : ℕ)
        → ArePoints from to signatures points → from ≤ moment → moment ≤ later → later ≤ to
        → ((point : ℕ) → Contains points point → moment < point → later < point)
        → AreSameValid signatures later moment }
{}

/// A law of points (RFC 4034 3.1.5, RFC 1982 3.2): a signature that ends less than 2^31 seconds behind its inception
/// changes at its inception and one second behind its expiration, around the circle of 2^32 seconds; one that ends
/// further behind it changes 2^31 - 1 seconds before its expiration and 2^31 behind its inception; one that ends 2^32 - 1
/// seconds behind it, so one second before it, is never valid.
pub fn where_signatures_change()
    ensures usual { (times : Times) (moment : ℕ) → 0 < moment
        → seconds_on times.inception.0 times.expiration.0 < 2147483648
        → (IsChange times moment ↔ ((seconds_on times.inception.0 moment ≡ 0)
        ⊎ (seconds_on times.inception.0 moment ≡ seconds_on times.inception.0 times.expiration.0 + 1))) }
    ensures odd { (times : Times) (moment : ℕ) → 0 < moment
        → 2147483648 ≤ seconds_on times.inception.0 times.expiration.0
        → seconds_on times.inception.0 times.expiration.0 < 4294967295
        → (IsChange times moment ↔ ((seconds_on times.inception.0 moment
        ≡ (seconds_on times.inception.0 times.expiration.0 - 2147483648) + 1)
        ⊎ (seconds_on times.inception.0 moment ≡ 2147483648))) }
    ensures never { (times : Times) (moment : ℕ)
        → seconds_on times.inception.0 times.expiration.0 ≡ 4294967295 → ¬ IsValidAt times moment }
{}

/// Worked examples of points: a signature that is valid round the end of the clock, from six seconds before 2^32 to five
/// behind it; one that is valid for one second; and one that ends 2^32 - 4 seconds behind its inception, so before it,
/// which is valid for three seconds half a circle later.
pub fn points_of_worked_examples()
    ensures around { ArePoints 4294967280 4294967320 (round_the_clock ∷ []) (4294967290 ∷ 4294967302 ∷ []) }
    ensures second { ArePoints 1000 2000 (one_second ∷ []) (1500 ∷ 1501 ∷ []) }
    ensures odd { ArePoints 2147483600 2147483700 (ends_before_it_begins ∷ []) (2147483645 ∷ 2147483648 ∷ []) }
{}
