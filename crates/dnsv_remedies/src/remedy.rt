//! What has to be mended on one way to a question's end.
ghost use Rattle.std.specs.Prelude.{◌≡◌, ◌++◌, [], ◌∷◌, IfOk, OnOk, map};
ghost use Rattle.std.specs.List.{list_any};
ghost use Rattle.std.specs.Option.{option_map};
ghost use Rattle.dnsv_mending.specs.Mend as mending;
ghost use Rattle.dnsv_remedies.specs.Remedy as remedies;
ghost use Rattle.dnsv_remedies.specs.Remedy.{Offers, fails_alone, seen, unusable_line, unusable_lines};
ghost use Rattle.dnsv_remedies.specs.Said.{is_reason};
ghost use Rattle.dnsv_remedies.specs.declared.said.Said.TheVariants as said;

use crate::facts::name::UnusableFacts;
use crate::said::Said;
use dnsv_mending::{Class, Mend, Price, Told};
use std::alloc::{AllocError, Global};

/// What has to be mended so that a question is answered, denied, or shown to be below an unsigned delegation: what that
/// costs, and what is reported of it.
#[derive(Debug, Drop)]
pub struct Remedy {
    /// How many faults of each class there are.
    pub price: Price,
    /// What is reported of all that it stands on, from the root down.
    pub chain: Vec<Said>,
    /// What is reported of the thing itself.
    pub own: Vec<Said>,
    /// Whether a part of a proof is missing.
    pub lacks: bool,
}

/// That of what stands.
pub fn nothing(alloc: Global) -> Remedy
    ensures { seen result ≡ remedies.nothing }
{
    Remedy {
        price: Price::none(),
        chain: Vec::new(alloc),
        own: Vec::new(alloc),
        lacks: false,
    }
}

/// That of a zone that is to be trusted, or of an RRset that is to be signed.
pub fn whole(alloc: Global, mend: &Mend) -> Result<Remedy, AllocError>
    ensures { IfOk result (λ m. seen m ≡ remedies.whole (mending.seen mend.now)) }
{
    Ok(Remedy {
        price: mend.price,
        chain: lines_of(alloc, &mend.chain)?,
        own: lines_of(alloc, &mend.own)?,
        lacks: false,
    })
}

/// What is reported of zones and signatures.
#[tactic(auto, using(crate::proofs::Lists::made_next))]
fn lines_of(alloc: Global, told: &[Told]) -> Result<Vec<Said>, AllocError>
    ensures { IfOk result (λ lines. lines.items ≡ map said.Trust told.now) }
{
    let mut lines = Vec::with_capacity(alloc, told.len())?;
    for line in told {
        lines.push(Said::Trust(*line))?;
    }
    Ok(lines)
}

/// That of a fault, which is reported.
pub fn fault(alloc: Global, class: Class, line: Said) -> Result<Remedy, AllocError>
    ensures { IfOk result (λ m. seen m ≡ remedies.fault class line) }
{
    let mut made = untold(alloc, class);
    made.own.push(line)?;
    Ok(made)
}

/// That of a fault of which nothing is reported.
pub fn untold(alloc: Global, class: Class) -> Remedy
    ensures { seen result ≡ remedies.untold class }
{
    Remedy {
        price: Price::one(class),
        chain: Vec::new(alloc),
        own: Vec::new(alloc),
        lacks: false,
    }
}

/// That of a part of a proof that is missing, which the lines tell.
pub fn missing(alloc: Global, class: Class, lines: &[Said]) -> Result<Remedy, AllocError>
    ensures { IfOk result (λ m. seen m ≡ remedies.missing class lines.now) }
{
    Ok(Remedy {
        price: Price::one(class),
        chain: Vec::new(alloc),
        own: Vec::from_slice(alloc, lines)?,
        lacks: true,
    })
}

/// That of a proof of which all is missing.
pub fn gap(alloc: Global) -> Remedy
    ensures { seen result ≡ remedies.gap }
{
    Remedy {
        price: Price::one(Class::Lacking),
        chain: Vec::new(alloc),
        own: Vec::new(alloc),
        lacks: true,
    }
}

/// What has to be mended for both.
pub fn both(alloc: Global, first: &Remedy, second: &Remedy) -> Result<Remedy, AllocError>
    ensures { IfOk result (λ m. seen m ≡ remedies.both (seen first.now) (seen second.now)) }
{
    Ok(Remedy {
        price: first.price.and(second.price),
        chain: joined(alloc, &first.chain, &second.chain)?,
        own: joined(alloc, &first.own, &second.own)?,
        lacks: first.lacks || second.lacks,
    })
}

/// What has to be mended for what stands on something else: the lines of `above` are its chain.
fn following(alloc: Global, above: &Remedy, below: &Remedy) -> Result<Remedy, AllocError>
    ensures { IfOk result (λ m. seen m ≡ remedies.following (seen above.now) (seen below.now)) }
{
    let mut chain = joined(alloc, &above.chain, &above.own)?;
    chain.extend_from_slice(&below.chain)?;
    Ok(Remedy {
        price: above.price.and(below.price),
        chain,
        own: Vec::from_slice(alloc, &below.own)?,
        lacks: above.lacks || below.lacks,
    })
}

/// The lines of both, one behind the other.
pub fn joined(alloc: Global, first: &[Said], second: &[Said]) -> Result<Vec<Said>, AllocError>
    ensures { IfOk result (λ lines. lines.items ≡ first.now ++ second.now) }
{
    let mut lines = Vec::from_slice(alloc, first)?;
    lines.extend_from_slice(second)?;
    Ok(lines)
}

/// Whether one of the lines says what fails.
fn has_reason(lines: &[Said]) -> bool
    ensures { result ≡ list_any is_reason lines.now }
{
    lines.iter().any(|line| line.is_reason())
}

/// Whether it fails by itself, and not what it stands on alone.
fn fails_alone(remedy: &Remedy) -> bool
    ensures { result ≡ fails_alone (seen remedy.now) }
{
    remedy.lacks || has_reason(&remedy.own)
}

/// Adds the line at its end, where it fails by itself.
pub fn end_with(remedy: &mut Remedy, line: Said) -> Result<(), AllocError>
    ensures { OnOk result (seen remedy.new ≡ remedies.ended line (seen remedy.old)) }
{
    if fails_alone(remedy) {
        remedy.own.push(line)?;
    }
    Ok(())
}

/// The lines of NSEC3 records that can't be used.
#[tactic(auto, using(crate::proofs::Lists::made_next), unfolding(crate::specs::Remedy::unusable_line))]
pub fn unusable_lines(alloc: Global, unusable: &[UnusableFacts]) -> Result<Vec<Said>, AllocError>
    ensures { IfOk result (λ lines. lines.items ≡ unusable_lines unusable.now) }
{
    let mut lines = Vec::with_capacity(alloc, unusable.len())?;
    for record in unusable {
        lines.push(Said::Nsec3(record.why, record.number))?;
    }
    Ok(lines)
}

/// Puts the records in front that can't be used, where something is missing.
pub fn put_in_front(
    alloc: Global,
    unusable: &[UnusableFacts],
    remedy: &mut Remedy,
) -> Result<(), AllocError>
    ensures { OnOk result (seen remedy.new ≡ remedies.with_unusable unusable.now (seen remedy.old)) }
{
    if remedy.lacks {
        let lines = unusable_lines(alloc, unusable)?;
        remedy.own = joined(alloc, &lines, &remedy.own)?;
    }
    Ok(())
}

/// Keeps the way where it is the first, or cheaper than the best one so far.
pub fn offer(best: &mut Option<Remedy>, way: Remedy)
    ensures { Offers (seen way ∷ []) best.old best.new }
{
    match best {
        Some(kept) if !way.price.is_cheaper(kept.price) => {}
        _ => *best = Some(way),
    }
}

/// Offers what stands on a zone, where there is a way to that. Lines are copied only where it is kept.
#[tactic(auto, using(crate::proofs::Better::better_kept, crate::proofs::Better::better_taken))]
pub fn offer_after(
    alloc: Global,
    above: Option<&Mend>,
    below: &Remedy,
    best: &mut Option<Remedy>,
) -> Result<(), AllocError>
    ensures { OnOk result (Offers (remedies.after (option_map (λ m. mending.seen m.now) above.entry) (seen below.now)) best.old best.new) }
{
    let Some(above) = above else {
        return Ok(());
    };
    if is_better(above.price.and(below.price), best) {
        let above = whole(alloc, above)?;
        *best = Some(following(alloc, &above, below)?);
    }
    Ok(())
}

/// Offers a signature and what it asks for beside it, where there is a way to the signature; copied likewise.
#[tactic(auto, using(crate::proofs::Better::better_kept, crate::proofs::Better::better_taken))]
pub fn offer_beside(
    alloc: Global,
    signature: Option<&Mend>,
    other: &Remedy,
    best: &mut Option<Remedy>,
) -> Result<(), AllocError>
    ensures { OnOk result (Offers (remedies.beside (option_map (λ m. mending.seen m.now) signature.entry) (seen other.now)) best.old best.new) }
{
    let Some(signature) = signature else {
        return Ok(());
    };
    if is_better(signature.price.and(other.price), best) {
        let signature = whole(alloc, signature)?;
        *best = Some(both(alloc, &signature, other)?);
    }
    Ok(())
}

/// Whether a way of the price is the first, or cheaper than the best one so far.
fn is_better(price: Price, best: &Option<Remedy>) -> bool
    ensures { result ≡ remedies.is_better price (option_map seen best.now) }
{
    match best {
        Some(best) => price.is_cheaper(best.price),
        None => true,
    }
}

/// Whether there are none.
#[tactic(auto, using(dnsv_mending::proofs::Lists::none_by_length))]
pub fn is_none<T>(things: &[T]) -> bool
    ensures { result ≡ mending.is_none things.now }
{
    things.is_empty()
}
