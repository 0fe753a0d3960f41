//! Laws of zones, without a word of their chains.
ghost use Rattle.std.specs.Prelude.{ℕ, ◌+◌, ◌<◌, ◌⊎◌, length};
ghost use Rattle.dnsv_names.specs.Name.{Labels, IsAtOrBelow, rightmost};
ghost use Rattle.dnsv_names.specs.Order.{IsBelow};
ghost use Rattle.dnsv_names.specs.Tree.{wildcard_of};
ghost use Rattle.dnsv_zones.specs.zones.Zone.{Zone, IsNode, IsClosedAt, IsWellFormed};
ghost use Rattle.dnsv_zones.specs.zones.Lookup.{IsClosestEncloser};

/// A law of zones: no node is below a delegation or a DNAME.
pub fn no_node_is_below_an_end_of_the_zone()
    ensures { (zone : Zone) (cut node : Labels) → IsWellFormed zone → IsClosedAt zone cut → IsNode zone node
        → ¬ IsBelow node cut }
{}

/// A law of zones: what is above a node, within the zone, is a node. So where a name is none, nothing below
/// it is one (RFC 8020 2).
pub fn what_is_above_a_node_is_a_node()
    ensures above { (zone : Zone) (node above : Labels) → IsNode zone node → IsAtOrBelow node above
        → IsAtOrBelow above zone.apex → IsNode zone above }
    ensures below { (zone : Zone) (missing name : Labels) → ¬ IsNode zone missing → IsAtOrBelow missing zone.apex
        → IsAtOrBelow name missing → ¬ IsNode zone name }
{}

/// A law of zones: a node above a name is its closest encloser where the next closer name is no node, and
/// the name is then no node.
pub fn a_next_closer_name_that_is_missing_ends_the_search()
    ensures encloser { (zone : Zone) (name : Labels) (labels : ℕ) → labels < length name
        → IsNode zone (rightmost name labels) → ¬ IsNode zone (rightmost name (labels + 1))
        → IsClosestEncloser zone name labels }
    ensures name { (zone : Zone) (name : Labels) (labels : ℕ) → IsClosestEncloser zone name labels
        → ¬ IsNode zone name }
{}

/// A law of zones: nothing above a name is a delegation or a DNAME where its closest encloser is none, or
/// where the wildcard right below its closest encloser is a node.
pub fn nothing_closed_is_above_a_missing_name()
    ensures { (zone : Zone) (name : Labels) (labels : ℕ) → IsWellFormed zone → IsClosestEncloser zone name labels
        → (¬ IsClosedAt zone (rightmost name labels)) ⊎ IsNode zone (wildcard_of (rightmost name labels))
        → (cut : Labels) → IsBelow name cut → ¬ IsClosedAt zone cut }
{}
