//! The lines of a name that may be unsigned.

mod unusable;

ghost use Rattle.std.specs.Prelude.{OnOk};
ghost use Rattle.dnsv_derivations.specs.Explained.{setting_in};
ghost use Rattle.dnsv_derivations.specs.Saying.{Adds};
ghost use Rattle.dnsv_derivations.specs.unsigned_cuts.ShownCuts.{IsCutShownBy, IsCutTold};

use crate::denials::add_denial;
use crate::evidence::Evidence;
use crate::unsigned_cuts::unusable::add_unusable;
use dnsv_denial::ShownCut;
use dnsv_lines::Line;
use dnsv_names::Name;
use dnsv_proof_forms::PartName;
use std::alloc::{AllocError, Global};

/// Adds the lines of the name from which on the name may be unsigned: the derivation of what shows it, the case, and
/// the parts of the proof, or why the records of a DS RRset can't be used.
pub fn add_cut(
    alloc: Global,
    evidence: &Evidence<'_>,
    lines: &mut Vec<Line>,
    name: &Name,
    cut: &ShownCut,
) -> Result<(), AllocError>
    requires { IsCutShownBy (setting_in evidence.now) name.now cut.now }
    ensures { OnOk result (Adds (IsCutTold (setting_in evidence.now) name.now cut.now) lines.old.items lines.new.items) }
{
    match cut {
        ShownCut::NoDs { shown, .. } => {
            add_denial(alloc, evidence, lines, name, shown)?;
        }
        ShownCut::NoUsableDs { labels } => {
            let at = PartName::Cut(*labels).of(name);
            add_unusable(alloc, evidence, lines, &at)?;
        }
        ShownCut::OptOut { shown, .. } => {
            add_denial(alloc, evidence, lines, name, shown)?;
        }
    }
    Ok(())
}
