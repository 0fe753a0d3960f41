//! What records prove, more records prove too.
ghost use Rattle.std.specs.Prelude.{ℕ, List};
ghost use Rattle.dnsv_names.specs.Name.{Labels};
ghost use Rattle.dnsv_zones.specs.Any.{AreAmong};
ghost use Rattle.dnsv_zones.specs.chains.NsecChain.{NsecRecord};
ghost use Rattle.dnsv_zones.specs.chains.Nsec3Chain.{Nsec3Record, NameHash};
ghost use Rattle.dnsv_zones.specs.forms.Nsec.{nsec_words};
ghost use Rattle.dnsv_zones.specs.forms.Nsec3.{nsec3_words, OptOutForm, OptedOutNextCloserForm};
ghost use Rattle.dnsv_zones.specs.forms.Forms.{NoNameForm, NoDataForms, NoCloserForm, UnsignedCutForm};

/// A law of NSEC: a form that stands over some records stands over more.
pub fn more_nsec_records_prove_no_less()
    ensures no_name { (apex name : Labels) (few many : List NsecRecord) → AreAmong few many
        → NoNameForm (nsec_words apex few) apex name → NoNameForm (nsec_words apex many) apex name }
    ensures no_data { (apex name : Labels) (t : ℕ) (few many : List NsecRecord) → AreAmong few many
        → NoDataForms (nsec_words apex few) apex name t → NoDataForms (nsec_words apex many) apex name t }
    ensures no_closer { (apex name : Labels) (labels : ℕ) (few many : List NsecRecord) → AreAmong few many
        → NoCloserForm (nsec_words apex few) apex name labels → NoCloserForm (nsec_words apex many) apex name labels }
    ensures unsigned_cut { (apex name cut : Labels) (few many : List NsecRecord) → AreAmong few many
        → UnsignedCutForm (nsec_words apex few) apex name cut → UnsignedCutForm (nsec_words apex many) apex name cut }
{}

/// A law of NSEC3: a form that stands over some records stands over more.
pub fn more_nsec3_records_prove_no_less()
    ensures no_name { (hash : NameHash) (apex name : Labels) (few many : List Nsec3Record) → AreAmong few many
        → NoNameForm (nsec3_words hash few) apex name → NoNameForm (nsec3_words hash many) apex name }
    ensures no_data { (hash : NameHash) (apex name : Labels) (t : ℕ) (few many : List Nsec3Record)
        → AreAmong few many
        → NoDataForms (nsec3_words hash few) apex name t → NoDataForms (nsec3_words hash many) apex name t }
    ensures no_closer { (hash : NameHash) (apex name : Labels) (labels : ℕ) (few many : List Nsec3Record)
        → AreAmong few many
        → NoCloserForm (nsec3_words hash few) apex name labels → NoCloserForm (nsec3_words hash many) apex name labels }
    ensures unsigned_cut { (hash : NameHash) (apex name cut : Labels) (few many : List Nsec3Record)
        → AreAmong few many
        → UnsignedCutForm (nsec3_words hash few) apex name cut → UnsignedCutForm (nsec3_words hash many) apex name cut }
    ensures opt_out { (hash : NameHash) (apex name : Labels) (labels : ℕ) (few many : List Nsec3Record)
        → AreAmong few many → OptOutForm hash few apex name labels → OptOutForm hash many apex name labels }
    ensures opted_out_next_closer { (hash : NameHash) (apex name : Labels) (labels : ℕ) (few many : List Nsec3Record)
        → AreAmong few many → OptedOutNextCloserForm hash few apex name labels → OptedOutNextCloserForm hash many apex
        name labels }
{}
