//! Names of a way, with what their lines are reported by.
ghost use Rattle.std.specs.Prelude.{◌≡◌, [], IfOk};
ghost use Rattle.std.specs.Option.{option_map_or};
ghost use Rattle.dnsv_verdict.specs.Report.{hashed_in};
ghost use Rattle.dnsv_holding.specs.Explained.{explained_by};

use dnsv_denial::View;
use dnsv_derivations::Evidence;
use dnsv_names::Name;
use dnsv_proof_forms::Hashes;
use dnsv_verdict::Case;
use dnsv_verifier::Entries;
use std::alloc::{AllocError, Global};

/// A name of a way, with the case of the question and the hashes for the name.
#[derive(Drop)]
pub struct At<'s, 'a> {
    pub case: &'s Case<'a>,
    pub hashes: &'s Hashes<'a>,
    pub name: &'s Name,
}

impl<'s, 'a> At<'s, 'a> {
    /// What the evidence of the case says of the name, by its trust.
    pub fn view(&self, alloc: Global) -> Result<View<'a, 's>, AllocError>
        requires { self.now.hashes.now ≡ hashed_in self.now.case.now.rrsets self.now.name.now }
        ensures { IfOk result (λ view. view ≡ record {
          rrsets = self.now.case.now.rrsets;
          trust = self.now.case.now.trust;
          name = self.now.name.now;
        }) }
    {
        let case = self.case;
        Ok(View::through(
            alloc,
            case.capture(),
            case.trust(),
            case.denials(),
            self.hashes,
        )?)
    }
}

/// The evidence of the case, with its trust, and the entries of which lines tell the numbers.
pub fn evidence_of<'e>(case: &'e Case<'_>, todo: Option<&'e Entries<'e>>) -> Evidence<'e>
    ensures { result ≡ explained_by case.now (option_map_or (λ entries. entries.now) todo.entry []) }
{
    Evidence::new(
        case.capture(),
        case.anchors(),
        case.table(),
        case.trust(),
        todo,
    )
}
