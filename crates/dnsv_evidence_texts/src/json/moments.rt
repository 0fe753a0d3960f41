//! The JSON of lists, up to what they list.
ghost use Rattle.std.specs.Prelude.{◌≡◌, ◌++◌, ◌∷◌, OnOk, codes, string_bytes, true};
ghost use Rattle.dnsv_lines.specs.Json.{member, parted, quoted};
ghost use Rattle.dnsv_evidence_texts.specs.Moments.{moments_members};

use dnsv_answers::Moments;
use std::alloc::AllocError;

/// Adds the beginning of an object: the members for the subcommand, and for the moment or the range that the list is for,
/// in seconds since 1970-01-01 00:00:00 UTC.
pub fn push_list_of(text: &mut String, moments: Moments) -> Result<(), AllocError>
    ensures { OnOk result (string_bytes text.new ≡ string_bytes text.old
        ++ codes "{" ++ parted true (member (codes "command") (quoted (codes "list")) ∷ moments_members moments)) }
{
    match moments {
        Moments::At(moment) => write!(text, "{{\"command\":\"list\",\"moment\":{moment}"),
        Moments::Between(from, to) => {
            write!(text, "{{\"command\":\"list\",\"from\":{from},\"to\":{to}")
        }
    }
}
