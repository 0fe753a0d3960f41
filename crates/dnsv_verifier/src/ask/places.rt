//! Where the parts of the signatures that were made stand.
ghost use Rattle.std.specs.Prelude.{◌≡◌, IfOk, List, length};
ghost use Rattle.std.specs.List.{AllZip};
ghost use Rattle.dnsv_canonical.specs.Rrsets.{ReceivedRrset};
ghost use Rattle.dnsv_verifier.specs.Asking.{AreMadeAt};
ghost use Rattle.dnsv_verifier.specs.Numbers.{ArePlaces, IsPartNumber, PartLists};

use crate::ask::made::MadeSignatures;
use crate::table::place::SignaturePlace;
use bumpalo::Bump;
use bumpalo::collections::into_bump_slice;
use std::alloc::AllocError;

/// Where the parts of the signatures stand, which have the numbers that were found. They lie in the arena.
pub(crate) fn places_of<'b>(
    bump: &'b Bump,
    made: &MadeSignatures<'_>,
    found: &[u32],
) -> Result<&'b [SignaturePlace], AllocError>
    requires numbers { length made.now.signatures.items ≡ length made.now.numbers.items }
    requires found { length found.now ≡ length made.now.numbers.items }
    ensures { (rrsets : List ReceivedRrset) (parts : PartLists)
        → AreMadeAt rrsets made.now.numbers.items made.now.signatures.items
        → AllZip (IsPartNumber parts) made.now.signatures.items found.now
        → IfOk result (λ places. ArePlaces rrsets parts places.now) }
{
    let mut places = Vec::with_capacity(bump, found.len())?;
    for (place, number) in made.numbers.iter().enumerate() {
        let rrsig = made.signatures[place].rrsig;
        places.push(SignaturePlace {
            number: *number,
            algorithm: rrsig.algorithm,
            part: found[place],
        })?;
    }
    Ok(into_bump_slice(places))
}
