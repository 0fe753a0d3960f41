//! The last lines of an explanation.
ghost use Rattle.std.specs.Prelude.{◌≡◌, ◌++◌, [], OnOk, map};
ghost use Rattle.dnsv_derivations.specs.Explained.{setting_in};
ghost use Rattle.dnsv_holding.specs.Holding.{IsEnd};
ghost use Rattle.dnsv_derivations.specs.Following.{EachFollows};
ghost use Rattle.dnsv_derivations.specs.Places.{ArePlacesTold};
ghost use Rattle.dnsv_derivations.specs.Saying.{Adds};

use dnsv_derivations::{Evidence, holding_of, places_named};
use dnsv_lines::{Line, RrsetPlace};
use std::alloc::{AllocError, Global};

/// Adds from when to when the signatures that the lines show are valid, and where the RRsets stand that they name.
pub fn add_end(
    alloc: Global,
    evidence: &Evidence<'_>,
    lines: &mut Vec<Line>,
) -> Result<(), AllocError>
    requires { EachFollows (setting_in evidence.now) [] lines.now.items }
    ensures { OnOk result (Adds (IsEnd evidence.now.rrsets evidence.now.table.moment) lines.old.items lines.new.items) }
{
    let interval = holding_of(alloc, evidence.capture(), lines, evidence.moment())?;
    let places = places_named(alloc, evidence.capture(), lines)?;
    lines.push(Line::Holds(interval))?;
    add_places(lines, places)?;
    Ok(())
}

/// Adds where the RRsets stand that the lines name.
pub fn add_places_named(
    alloc: Global,
    evidence: &Evidence<'_>,
    lines: &mut Vec<Line>,
) -> Result<(), AllocError>
    ensures { OnOk result (Adds (ArePlacesTold evidence.now.rrsets) lines.old.items lines.new.items) }
{
    let places = places_named(alloc, evidence.capture(), lines)?;
    Ok(add_places(lines, places)?)
}

/// Adds where the RRsets stand.
fn add_places(lines: &mut Vec<Line>, places: Vec<RrsetPlace>) -> Result<(), AllocError>
    ensures { OnOk result (lines.new.items ≡ lines.old.items ++ map (λ place. Line.Rrset place) places.items) }
{
    for place in places {
        lines.push(Line::Rrset(place))?;
    }
    Ok(())
}
