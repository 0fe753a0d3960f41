//! What the questions of one case share beside it.
ghost use Rattle.std.specs.Prelude.{◌≡◌, ◌<◌, ◌≤◌, Contains, IfOk, IfSome, List, length};
ghost use Rattle.dnsv_names.specs.Count.{counted};
ghost use Rattle.dnsv_records.specs.declared.nsec3.Nsec3Parameters.{Nsec3Parameters};
ghost use Rattle.dnsv_zones.specs.chains.HashedNames.{hashes_for};
ghost use Rattle.dnsv_canonical.specs.Evidence.{AreParameters, nsec3_rdata};
ghost use Rattle.dnsv_canonical.specs.Rrsets.{ReceivedRrset};
ghost use Rattle.dnsv_chain.specs.Basis.{CaseContents};
ghost use Rattle.dnsv_verdict.specs.Shared.{AreHashedIn, IsSharedOf};
ghost use Rattle.dnsv_verdict.specs.Hope.{IsHopeful};
ghost use Rattle.dnsv_verdict.specs.Report.{hashed_in};

use crate::case::Case;
use crate::case::hashed_name::HashedName;
use dnsv_names::{Count, Name};
use dnsv_proof_forms::Hashes;
use std::alloc::{AllocError, Global};
use std::rc::Rc;

/// How many names the hashes are kept for: as many as the longest way has.
const NAMES_KEPT: usize = 9;

/// What the questions of one case share beside it, each made by the first question that needs it: the case of what may be
/// hoped, and the hashes for the names that were asked last. Nothing is shared yet at the start.
#[derive(Drop)]
pub struct Shared<'a> {
    /// Whether anything is kept, since there will be more questions.
    keeps: bool,
    /// The case with the hopeful table.
    hopeful: Option<Rc<Case<'a>>>,
    /// The names, with their hashes.
    names: Vec<HashedName<'a>>,
}

impl<'a> Shared<'a> {
    /// Nothing yet, which is so of any case. No memory is taken.
    pub fn new(alloc: Global, keeps: bool) -> Shared<'a>
        ensures { (case : CaseContents) → IsSharedOf case result }
    {
        Shared {
            keeps,
            hopeful: None,
            names: Vec::new(alloc),
        }
    }

    /// What another case of the same evidence may go on with: the names with their hashes. The hopeful case is of this
    /// case's table, so it is let go.
    pub(crate) fn for_another(self) -> Shared<'a>
        ensures { (case other : CaseContents) → IsSharedOf case self.entry → other.rrsets ≡ case.rrsets
            → IsSharedOf other result }
    {
        Shared {
            keeps: self.keeps,
            hopeful: None,
            names: self.names,
        }
    }

    /// The case with the hopeful table, which is made where no question needed it yet.
    pub(crate) fn hopeful_of(
        &mut self,
        alloc: Global,
        case: &Case<'a>,
    ) -> Result<Rc<Case<'a>>, AllocError>
        requires { IsSharedOf case.now self.now }
        ensures hopeful { IfOk result (λ hopeful. IsHopeful case.now hopeful.value) }
        ensures shared { IsSharedOf case.now self.new }
    {
        if let Some(hopeful) = &self.hopeful {
            return Ok(hopeful.clone()?);
        }
        let hopeful = hopeful_case(alloc, case)?;
        if !self.keeps {
            return Ok(hopeful);
        }
        let kept = hopeful.clone()?;
        self.hopeful = Some(kept);
        Ok(hopeful)
    }

    /// The hashes for the name, with the parameters of the case's evidence, which are made where they aren't kept.
    /// `hashed` grows by the digests that they take, as if they were made now.
    pub(crate) fn hashes_for(
        &mut self,
        alloc: Global,
        case: &Case<'a>,
        name: &Name,
        hashed: &mut Count,
    ) -> Result<Rc<Hashes<'a>>, AllocError>
        requires { IsSharedOf case.now self.now }
        ensures value { IfOk result (λ hashes. hashes.value ≡ hashed_in case.now.rrsets name.now) }
        ensures hashed { IfOk result (λ hashes. (all : List Nsec3Parameters)
            → AreParameters (nsec3_rdata case.now.rrsets) all
            → hashed.new ≡ counted hashed.old (hashes_for name.now all)) }
        ensures shared { IsSharedOf case.now self.new }
    {
        if let Some(kept) = kept_for(&self.names, name) {
            return Ok(kept.share(hashed)?);
        }
        let made = HashedName::new(alloc, case.capture(), name)?;
        let hashes = made.share(hashed)?;
        self.keep(made)?;
        Ok(hashes)
    }

    /// Keeps the hashes of one name more, if anything is kept. Where there are many, the oldest go first.
    fn keep(&mut self, made: HashedName<'a>) -> Result<(), AllocError>
        ensures { (case : CaseContents) → IsSharedOf case self.old → made.entry.rrsets ≡ case.rrsets
            → IsSharedOf case self.new }
    {
        if !self.keeps {
            return Ok(());
        }
        make_room(&mut self.names);
        self.names.push(made)?;
        Ok(())
    }
}

/// The case with the hopeful table, its trust and its denials.
fn hopeful_case<'a>(alloc: Global, case: &Case<'a>) -> Result<Rc<Case<'a>>, AllocError>
    ensures { IfOk result (λ hopeful. IsHopeful case.now hopeful.value) }
{
    let hopeful = case.hopeful(alloc)?;
    Ok(Rc::new(alloc, hopeful)?)
}

/// The hashes for the name, as it is spelled, if they are kept.
fn kept_for<'s, 'a>(names: &'s [HashedName<'a>], name: &Name) -> Option<&'s HashedName<'a>>
    ensures { IfSome result (λ kept. Contains names.now kept.now × (kept.now.name ≡ name.now)) }
{
    names.iter().find(|kept| kept.is_for(name))
}

/// Lets the oldest name go where there are as many as are kept.
fn make_room(names: &mut Vec<HashedName<'_>>)
    ensures hashed { (rrsets : List ReceivedRrset) → AreHashedIn rrsets names.old.items
        → AreHashedIn rrsets names.new.items }
    ensures room { length names.old.items ≤ 9 → length names.new.items < 9 }
{
    if names.len() >= NAMES_KEPT {
        names.remove(0);
    }
}
