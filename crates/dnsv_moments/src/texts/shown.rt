//! Border lines: what is shown of a signature that ends or begins.
ghost use Rattle.std.specs.Prelude.{◌≡◌, IfOk, MatchOption, OnOk};
ghost use Rattle.dnsv_derivations.specs.Listing.{AreOfEach};
ghost use Rattle.dnsv_lines.specs.Sentence.{said_sentence};
ghost use Rattle.dnsv_lines.specs.declared.line.fault.signature.ShownSignature.{ShownSignature};
ghost use Rattle.dnsv_moments.specs.texts.Following.{AddsShown};
ghost use Rattle.dnsv_moments.specs.texts.Shown as specs;
ghost use Rattle.dnsv_moments.specs.declared.texts.shown.ShownBorder.{ShownBorder};

use crate::dated::dated_signatures;
use crate::texts::borders::{Border, Edge, borders_between};
use dnsv_canonical::{Capture, Rrset, SignatureNumber, numbered};
use dnsv_lines::{Field, KeyName, Sentence, ShownSignature, Value};
use dnsv_records::Rrsig;
use std::alloc::{AllocError, Global};

/// A signature that ends or begins at a border, with what the evidence says of it.
#[derive(Debug, Drop)]
pub struct ShownBorder {
    pub border: Border,
    pub signature: ShownSignature,
}

impl ShownBorder {
    /// The words and the fields of its line.
    pub fn sentence(&self) -> Sentence<'_>
        ensures { said_sentence result ≡ specs.border_row self.now }
    {
        let shown = &self.signature;
        let times = self.border.signature.times;
        let word = edge_word(self.border.edge);
        Sentence::of(
            word,
            &[
                Field::plain("moment", Value::Number(self.border.moment)),
                Field::plain("owner", Value::Name(&shown.owner)),
                Field::plain("type", Value::Number(u64::from(shown.rtype.0))),
                Field::same("rrset", Value::Rrset(shown.number.rrset)),
                Field::same("signature", Value::count(shown.number.signature)),
                Field::under("key", "tag", Value::Number(u64::from(shown.key.tag.0))),
                Field::plain("algorithm", Value::Number(u64::from(shown.key.algorithm.0))),
                Field::under("zone", "signer", Value::Name(&shown.signer)),
                Field::under(
                    "from",
                    "inception",
                    Value::Number(u64::from(times.inception.0)),
                ),
                Field::under(
                    "to",
                    "expiration",
                    Value::Number(u64::from(times.expiration.0)),
                ),
            ],
        )
    }
}

/// What the signature does, in a word.
fn edge_word(edge: Edge) -> &'static str
    ensures { result.now ≡ specs.edge_word edge }
{
    match edge {
        Edge::Ends => "ends",
        Edge::Begins => "begins",
    }
}

/// What is shown in front of a stretch that begins at the moment, behind one that ends by the first signatures, where it
/// is derived by the others.
pub fn shown_borders(
    alloc: Global,
    capture: &Capture<'_>,
    before: &[SignatureNumber],
    by: &[SignatureNumber],
    from: u64,
) -> Result<Vec<ShownBorder>, AllocError>
    ensures { IfOk result (λ shown. specs.AreBordersShown capture.now.rrsets before.now by.now from shown.items) }
{
    let dated_before = dated_signatures(alloc, capture, before)?;
    let dated_by = dated_signatures(alloc, capture, by)?;
    let borders = borders_between(alloc, &dated_before, &dated_by, from)?;
    shown_each(alloc, capture.rrsets(), &borders)
}

/// What is shown of each of them.
fn shown_each(
    alloc: Global,
    rrsets: &[Rrset<'_>],
    borders: &[Border],
) -> Result<Vec<ShownBorder>, AllocError>
    ensures { IfOk result (λ shown. AreOfEach (specs.AreShownAs rrsets.now) borders.now shown.items) }
{
    let mut all = Vec::new(alloc);
    for border in borders {
        push_shown(&mut all, rrsets, border)?;
    }
    Ok(all)
}

/// Adds what is shown of the border, where the evidence has its signature.
fn push_shown(
    all: &mut Vec<ShownBorder>,
    rrsets: &[Rrset<'_>],
    border: &Border,
) -> Result<(), AllocError>
    ensures { OnOk result (AddsShown rrsets.now border.now all.old.items all.new.items) }
{
    let Some(shown) = shown_border(rrsets, *border) else {
        return Ok(());
    };
    all.push(shown)?;
    Ok(())
}

/// What is shown of the border; `None` where the evidence has no such signature.
fn shown_border(rrsets: &[Rrset<'_>], border: Border) -> Option<ShownBorder>
    ensures { MatchOption result ((shown : ShownBorder) → ¬ specs.IsBorderShown rrsets.now border shown)
        (specs.IsBorderShown rrsets.now border) }
{
    let Some(signature) = shown_signature(rrsets, border.signature.number) else {
        return None;
    };
    Some(ShownBorder { border, signature })
}

/// What is shown of the signature with the number; `None` where the evidence has none.
fn shown_signature(rrsets: &[Rrset<'_>], number: SignatureNumber) -> Option<ShownSignature>
    ensures { MatchOption result ((shown : ShownSignature) → ¬ specs.IsSignatureShown rrsets.now number shown)
        (specs.IsSignatureShown rrsets.now number) }
{
    let Some(rrset) = numbered(rrsets, number.rrset) else {
        return None;
    };
    let Some(rrsig) = numbered(rrset.signatures(), number.signature) else {
        return None;
    };
    Some(shown_of(number, rrset, rrsig))
}

/// A signature of the RRset, with the number and what it names its key by.
fn shown_of(number: SignatureNumber, rrset: &Rrset<'_>, rrsig: &Rrsig<'_>) -> ShownSignature
    ensures { result ≡ specs.shown_of number rrset.now rrsig.now }
{
    ShownSignature {
        owner: rrset.owner().clone().unwrap(),
        rtype: rrset.rtype(),
        number,
        key: KeyName {
            tag: rrsig.key_tag,
            algorithm: rrsig.algorithm,
        },
        signer: rrsig.signer.to_name(),
    }
}
