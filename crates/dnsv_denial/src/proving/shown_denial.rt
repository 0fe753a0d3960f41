//! How a denial is shown.
ghost use Rattle.std.specs.Prelude.{◌≡◌};
ghost use Rattle.dnsv_proof_forms.specs.forms.ProofForms.{option_by};
ghost use Rattle.dnsv_proof_forms.specs.forms.ProofParts.{form_parts};

use crate::proving::proof::Proof;
use arrayvec::ArrayVec;
use dnsv_canonical::RecordNumber;
use dnsv_proof_forms::{ChainKind, ProofForm, ProofPart, form_parts};

/// A proof that a name or a type isn't there, with the form that stands and the record for each of its parts (RFC 4035
/// 5.4, RFC 5155 8). It lies in the value itself and takes no memory.
#[derive(Debug, Drop)]
pub struct ShownDenial {
    /// The zone, and the records of all parts, each once.
    pub proof: Proof,
    /// Which chain of the zone they are of.
    pub chain: ChainKind,
    /// The form, and the record of lowest number for each of its parts.
    pub form: ProofForm<RecordNumber>,
}

impl ShownDenial {
    /// What each part says, in the order of the form.
    pub fn parts(&self) -> ArrayVec<ProofPart, 3>
        ensures { result.items ≡ form_parts self.now.chain self.now.form }
    {
        form_parts(self.chain, self.form)
    }
}

/// The proof alone.
pub fn proof_of(shown: Option<ShownDenial>) -> Option<Proof>
    ensures { result ≡ option_by (λ shown. shown.proof) shown }
{
    let Some(shown) = shown else {
        return None;
    };
    Some(shown.proof)
}
