//! What is reported is said by one list of lines.
ghost use Rattle.std.specs.Prelude.{◌≡◌, List};
ghost use Rattle.dnsv_gaps.specs.Asking.{Asking};
ghost use Rattle.dnsv_lines.specs.declared.line.Line.{Line};
ghost use Rattle.dnsv_reasons.specs.Lines.{AreSaidLines};
ghost use Rattle.dnsv_remedies.specs.declared.said.Said.{Said};

/// A law: what is reported by numbers is said by one list of lines.
pub fn what_is_told_is_said_by_one_list()
    ensures { (a : Asking) (told : List Said) (lines others : List Line) → AreSaidLines a told lines → AreSaidLines a told others
        → lines ≡ others }
{}
