//! One line of a file of trust anchors.
ghost use Rattle.std.specs.Prelude.{◌≡◌, ◌↔◌, ◌++◌, ◌∷◌, [], List, ℕ, length, IfOk, IsTrue, MatchOption, OnErr};
ghost use Rattle.std.specs.Int.{w16, to_be_bytes};
ghost use Rattle.dnsv_names.specs.Lines.{AreFields};
ghost use Rattle.dnsv_records.specs.declared.ds.Ds.{Ds};
ghost use Rattle.dnsv_anchors.specs.AnchorFile.{IsAnchorLine, IsDnskeyText, IsDsText};
ghost use Rattle.dnsv_anchors.specs.declared.anchor.Anchor.{Anchor};

use crate::anchor::Anchor;
use crate::hex_field::hex_octets;
use bumpalo::Bump;
use bumpalo::collections::into_bump_slice;
use dnsv_names::{Line, Name, base64_octets, decimal_u8, decimal_u16, is_base64};
use dnsv_records::{Algorithm, DigestType, Ds, KeyTag, Octets};
use std::alloc::{AllocError, Global};

type SixFields<'a> = (&'a [u8], &'a [u8], &'a [u8], &'a [u8], &'a [u8], &'a [u8]);

/// The anchor that a line says, its octets in the arena; `None` where it says none. Memory is asked for only where it
/// says one.
pub(crate) fn anchor_of<'b>(
    alloc: Global,
    bump: &'b Bump,
    line: &Line,
) -> Result<Option<Anchor<'b>>, AllocError>
    ensures found { IfOk result (λ found. MatchOption found
        ((anchor : Anchor) → IsAnchorLine line.now.octets anchor → ⊥) (IsAnchorLine line.now.octets)) }
    ensures refused { OnErr result ((anchor : Anchor) × IsAnchorLine line.now.octets anchor) }
{
    let Some((word, name, first, second, third, last)) = six_fields(line) else {
        return Ok(None);
    };
    let Ok(owner) = Name::parse(name) else {
        return Ok(None);
    };
    if is_word(word, b"DS") {
        let Some(ds) = ds_of(bump, first, second, third, last)? else {
            return Ok(None);
        };
        return Ok(Some(Anchor::Ds { owner, ds }));
    }
    if is_word(word, b"KEY") {
        let Some(rdata) = dnskey_of(alloc, bump, first, second, third, last)? else {
            return Ok(None);
        };
        return Ok(Some(Anchor::Key { owner, rdata }));
    }
    Ok(None)
}

/// The fields of a line that has six.
fn six_fields<'a>(line: &Line<'a>) -> Option<SixFields<'a>>
    ensures { MatchOption result
        ((fields : List (List ℕ)) → AreFields line.now.octets fields → length fields ≡ 6 → ⊥)
        (λ found. AreFields line.now.octets (found.0.now ∷ found.1.now ∷ found.2.now ∷ found.3.now
        ∷ found.4.now ∷ found.5.now ∷ [])) }
{
    let fields = line.fields::<6>()?;
    let [first, second, third, fourth, fifth, sixth] = fields.as_slice() else {
        return None;
    };
    Some((first, second, third, fourth, fifth, sixth))
}

/// Whether a field is the word.
fn is_word(field: &[u8], word: &[u8]) -> bool
    ensures { IsTrue result ↔ (field.now ≡ word.now) }
{
    field == word
}

/// The DS record of these fields, `None` where they are none. Memory is asked for only where they are one.
fn ds_of<'b>(
    bump: &'b Bump,
    key_tag: &[u8],
    algorithm: &[u8],
    digest_type: &[u8],
    digest: &[u8],
) -> Result<Option<Ds<'b>>, AllocError>
    ensures found { IfOk result (λ found. MatchOption found
        ((ds : Ds) → IsDsText key_tag.now algorithm.now digest_type.now digest.now ds → ⊥)
        (IsDsText key_tag.now algorithm.now digest_type.now digest.now)) }
    ensures refused { OnErr result ((ds : Ds) × IsDsText key_tag.now algorithm.now digest_type.now digest.now ds) }
{
    let Some(key_tag) = decimal_u16(key_tag) else {
        return Ok(None);
    };
    let Some(algorithm) = decimal_u8(algorithm) else {
        return Ok(None);
    };
    let Some(digest_type) = decimal_u8(digest_type) else {
        return Ok(None);
    };
    let Some(digest) = hex_octets(bump, digest)? else {
        return Ok(None);
    };
    Ok(Some(Ds {
        key_tag: KeyTag(key_tag),
        algorithm: Algorithm(algorithm),
        digest_type: DigestType(digest_type),
        digest,
    }))
}

/// The RDATA of the DNSKEY record of these fields, `None` where they are none. Memory is asked for only where they are
/// one.
fn dnskey_of<'b>(
    alloc: Global,
    bump: &'b Bump,
    flags: &[u8],
    protocol: &[u8],
    algorithm: &[u8],
    key: &[u8],
) -> Result<Option<Octets<'b>>, AllocError>
    ensures found { IfOk result (λ found. MatchOption found
        ((rdata : List ℕ) → IsDnskeyText flags.now protocol.now algorithm.now key.now rdata → ⊥)
        (IsDnskeyText flags.now protocol.now algorithm.now key.now)) }
    ensures refused { OnErr result
        ((rdata : List ℕ) × IsDnskeyText flags.now protocol.now algorithm.now key.now rdata) }
{
    let Some(flags) = decimal_u16(flags) else {
        return Ok(None);
    };
    let Some(protocol) = decimal_u8(protocol) else {
        return Ok(None);
    };
    let Some(algorithm) = decimal_u8(algorithm) else {
        return Ok(None);
    };
    if !is_base64(key) {
        return Ok(None);
    }
    let key = base64_octets(alloc, key)?;
    Ok(Some(dnskey_rdata(bump, flags, protocol, algorithm, &key)?))
}

/// The RDATA of a DNSKEY record (RFC 4034 2.1).
fn dnskey_rdata<'b>(
    bump: &'b Bump,
    flags: u16,
    protocol: u8,
    algorithm: u8,
    key: &[u8],
) -> Result<Octets<'b>, AllocError>
    ensures { IfOk result (λ rdata. rdata ≡ to_be_bytes w16 flags ++ protocol ∷ algorithm ∷ key.now) }
{
    let mut rdata = Vec::from_slice(bump, &flags.to_be_bytes())?;
    rdata.push(protocol)?;
    rdata.push(algorithm)?;
    rdata.extend_from_slice(key)?;
    Ok(Octets::of(into_bump_slice(rdata)))
}
