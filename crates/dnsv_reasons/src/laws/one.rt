//! What fails of a question is one list.
ghost use Rattle.std.specs.Prelude.{◌≡◌, ℕ, List};
ghost use Rattle.std.specs.List.{AllZip};
ghost use Rattle.dnsv_names.specs.Name.{Labels};
ghost use Rattle.dnsv_canonical.specs.Rrsets.{ReceivedRrset};
ghost use Rattle.dnsv_gaps.specs.Asking.{Asking};
ghost use Rattle.dnsv_lines.specs.declared.line.Line.{Line};
ghost use Rattle.dnsv_mending.specs.declared.facts.signature.RrsetFacts.{RrsetFacts};
ghost use Rattle.dnsv_mending.specs.declared.facts.signature.SignatureFacts.{SignatureFacts};
ghost use Rattle.dnsv_mending.specs.declared.facts.zone.ZoneFacts.{ZoneFacts};
ghost use Rattle.dnsv_chain.specs.Basis.{Basis};
ghost use Rattle.dnsv_faults.specs.Rrsets.{AreRrsetFacts};
ghost use Rattle.dnsv_faults.specs.Signatures.{AreSignatureFacts};
ghost use Rattle.dnsv_zone_faults.specs.Zones.{AreZoneFacts};
ghost use Rattle.dnsv_remedy_laws.specs.AlikeZones.{AreAlikeRrsets, AreAlikeSignatures, AreAlikeZones};
ghost use Rattle.dnsv_reasons.specs.Failures.{AreFailures};

/// A law: the facts of signatures, of RRsets and of zones are determined by the case, up to where their lists lie in memory.
pub fn the_facts_of_zones_are_one()
    ensures signatures { (basis : Basis) (k : ℕ) (rrset : ReceivedRrset) (s : ℕ) (a b : SignatureFacts)
        → AreSignatureFacts basis k rrset s a → AreSignatureFacts basis k rrset s b → AreAlikeSignatures a b }
    ensures rrsets { (basis : Basis) (k : ℕ) (a b : RrsetFacts) → AreRrsetFacts basis k a → AreRrsetFacts basis k b → AreAlikeRrsets a b }
    ensures zones { (basis : Basis) (name : Labels) (t : ℕ) (zones others : List ZoneFacts) → AreZoneFacts basis name t zones
        → AreZoneFacts basis name t others → AllZip AreAlikeZones zones others }
{}

/// A law: what fails of a question is one list of lines.
pub fn what_fails_is_one_list()
    ensures { (a : Asking) (lines others : List Line) → AreFailures a lines → AreFailures a others → lines ≡ others }
{}
