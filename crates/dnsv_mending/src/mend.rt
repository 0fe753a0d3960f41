//! What has to be mended on one way.
ghost use Rattle.std.specs.Prelude.{◌≡◌, ◌++◌, [], ◌∷◌, IfOk, OnOk};
ghost use Rattle.std.specs.Option.{option_map};
ghost use Rattle.dnsv_mending.specs.Mend as mend;
ghost use Rattle.dnsv_mending.specs.Mend.{Offers, seen};
ghost use Rattle.dnsv_mending.specs.Price.{none};

use crate::price::{Class, Price};
use crate::told::Told;
use std::alloc::{AllocError, Global};

/// What has to be mended so that something stands: what that costs, and what is reported of it.
#[derive(Debug, Drop)]
pub struct Mend {
    /// How many faults of each class there are.
    pub price: Price,
    /// What is reported of all that it stands on, from the root down.
    pub chain: Vec<Told>,
    /// What is reported of the thing itself.
    pub own: Vec<Told>,
}

impl Mend {
    /// That of what stands.
    pub fn nothing(alloc: Global) -> Mend
        ensures { seen result ≡ mend.nothing }
    {
        Mend {
            price: Price::none(),
            chain: Vec::new(alloc),
            own: Vec::new(alloc),
        }
    }

    /// That of one fault, which is reported.
    pub fn fault(alloc: Global, told: Told) -> Result<Mend, AllocError>
        ensures { IfOk result (λ m. seen m ≡ mend.fault told) }
    {
        let mut made = Mend::nothing(alloc);
        made.add(told)?;
        Ok(made)
    }

    /// That of some faults, each of which is reported.
    pub fn telling(alloc: Global, lines: Vec<Told>) -> Mend
        ensures { seen result ≡ mend.telling lines.items }
    {
        Mend {
            price: cost_of(&lines),
            chain: Vec::new(alloc),
            own: lines,
        }
    }

    /// Adds one fault, which is reported.
    pub fn add(&mut self, told: Told) -> Result<(), AllocError>
        ensures { OnOk result (seen self.new ≡ mend.both (seen self.old) (mend.fault told)) }
    {
        self.price = self.price.and(told.cost());
        self.own.push(told)?;
        Ok(())
    }

    /// Adds one fault of the class of which nothing is reported.
    pub fn add_untold(&mut self, class: Class)
        ensures { seen self.new ≡ mend.both (seen self.old) (mend.untold class) }
    {
        self.price = self.price.and(Price::one(class));
    }

    /// What has to be mended for both.
    pub fn both(alloc: Global, first: &Mend, second: &Mend) -> Result<Mend, AllocError>
        ensures { IfOk result (λ m. seen m ≡ mend.both (seen first.now) (seen second.now)) }
    {
        Ok(Mend {
            price: first.price.and(second.price),
            chain: joined(alloc, &first.chain, &second.chain)?,
            own: joined(alloc, &first.own, &second.own)?,
        })
    }

    /// What has to be mended for what stands on something else: the lines of `above` are its chain.
    pub fn following(alloc: Global, above: &Mend, below: &Mend) -> Result<Mend, AllocError>
        ensures { IfOk result (λ m. seen m ≡ mend.following (seen above.now) (seen below.now)) }
    {
        let mut chain = joined(alloc, &above.chain, &above.own)?;
        chain.extend_from_slice(&below.chain)?;
        Ok(Mend {
            price: above.price.and(below.price),
            chain,
            own: Vec::from_slice(alloc, &below.own)?,
        })
    }

    /// The same once more.
    pub fn copied(&self, alloc: Global) -> Result<Mend, AllocError>
        ensures { IfOk result (λ m. seen m ≡ seen self.now) }
    {
        Ok(Mend {
            price: self.price,
            chain: Vec::from_slice(alloc, &self.chain)?,
            own: Vec::from_slice(alloc, &self.own)?,
        })
    }
}

/// What the lines cost together.
fn cost_of(lines: &[Told]) -> Price
    ensures { result ≡ mend.cost_from none lines.now }
{
    let mut price = Price::none();
    for line in lines {
        price = price.and(line.cost());
    }
    price
}

/// The lines of both, one behind the other.
fn joined(alloc: Global, first: &[Told], second: &[Told]) -> Result<Vec<Told>, AllocError>
    ensures { IfOk result (λ lines. lines.items ≡ first.now ++ second.now) }
{
    let mut lines = Vec::from_slice(alloc, first)?;
    lines.extend_from_slice(second)?;
    Ok(lines)
}

/// Keeps the way where it is the first, or cheaper than the best one so far.
pub fn offer(best: &mut Option<Mend>, way: Mend)
    ensures { Offers (seen way ∷ []) best.old best.new }
{
    match best {
        Some(kept) if !way.price.is_cheaper(kept.price) => {}
        _ => *best = Some(way),
    }
}

/// Offers what stands on something else, where there is a way to that.
#[tactic(auto, using(crate::proofs::Better::better_kept, crate::proofs::Better::better_taken))]
pub fn offer_after(
    alloc: Global,
    above: Option<&Mend>,
    below: &Mend,
    best: &mut Option<Mend>,
) -> Result<(), AllocError>
    ensures { OnOk result (Offers (mend.after (option_map (λ m. seen m.now) above.entry) (seen below.now)) best.old best.new) }
{
    let Some(above) = above else {
        return Ok(());
    };
    let price = above.price.and(below.price);
    if is_better(price, best) {
        *best = Some(Mend::following(alloc, above, below)?);
    }
    Ok(())
}

/// Offers what stands on something else behind a fault that may not be there, where there is a way to both.
#[tactic(auto, using(crate::proofs::Better::better_kept, crate::proofs::Better::better_taken))]
pub fn offer_joined(
    alloc: Global,
    above: Option<&Mend>,
    told: Option<Told>,
    below: Option<&Mend>,
    best: &mut Option<Mend>,
) -> Result<(), AllocError>
    ensures { OnOk result (Offers (mend.joined (option_map (λ m. seen m.now) above.entry) told
        (option_map (λ m. seen m.now) below.entry)) best.old best.new) }
{
    let Some(above) = above else {
        return Ok(());
    };
    let Some(below) = below else {
        return Ok(());
    };
    let price = above.price.and(price_with(told, below));
    if is_better(price, best) {
        let own = with_fault(alloc, told, below)?;
        *best = Some(Mend::following(alloc, above, &own)?);
    }
    Ok(())
}

/// What a fault that may not be there costs, and what is behind it.
fn price_with(told: Option<Told>, below: &Mend) -> Price
    ensures { result ≡ (mend.with_fault told (seen below.now)).price }
{
    match told {
        Some(told) => told.cost().and(below.price),
        None => below.price,
    }
}

/// A fault that may not be there, and what is behind it.
fn with_fault(alloc: Global, told: Option<Told>, below: &Mend) -> Result<Mend, AllocError>
    ensures { IfOk result (λ m. seen m ≡ mend.with_fault told (seen below.now)) }
{
    match told {
        Some(told) => Mend::both(alloc, &Mend::fault(alloc, told)?, below),
        None => below.copied(alloc),
    }
}

/// Offers what is kept, where there is a way to it.
#[tactic(auto, using(crate::proofs::Better::better_kept, crate::proofs::Better::better_taken))]
pub fn offer_kept(
    alloc: Global,
    kept: Option<&Mend>,
    best: &mut Option<Mend>,
) -> Result<(), AllocError>
    ensures { OnOk result (Offers (mend.ways_of (option_map (λ m. seen m.now) kept.entry)) best.old best.new) }
{
    let Some(kept) = kept else {
        return Ok(());
    };
    if is_better(kept.price, best) {
        *best = Some(kept.copied(alloc)?);
    }
    Ok(())
}

/// Whether a way of the price is the first, or cheaper than the best one so far.
fn is_better(price: Price, best: &Option<Mend>) -> bool
    ensures { result ≡ mend.is_better price (option_map seen best.now) }
{
    match best {
        Some(best) => price.is_cheaper(best.price),
        None => true,
    }
}

/// Whether there are none.
#[tactic(auto, using(crate::proofs::Lists::none_by_length))]
pub fn is_none<T>(things: &[T]) -> bool
    ensures { result ≡ mend.is_none things.now }
{
    things.is_empty()
}
