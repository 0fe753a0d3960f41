//! Names as keys, by order and by hash, and names and RDATA of messages.
use dnsv_message::{Class, NameRef, NameRefByWire, RdataRef, rdata_ref_at};
use dnsv_names::{Name, RecordType};
use std::alloc::Global;
use std::collections::{BTreeMap, HashMap};
use std::test::Fail;

// Whether a map by order finds what was kept under the key.
fn is_found_by_order(alloc: Global, key: &[u8], asked: &[u8]) -> Result<bool, Fail> {
    let mut map = BTreeMap::new(alloc);
    map.insert(Name::parse(key)?, ())?;
    Ok(map.contains_key(&Name::parse(asked)?))
}

// The same of a map by hash.
fn is_found_by_hash(alloc: Global, key: &[u8], asked: &[u8]) -> Result<bool, Fail> {
    let mut map = HashMap::new(alloc);
    map.insert(Name::parse(key)?, ())?;
    Ok(map.contains_key(&Name::parse(asked)?))
}

#[test]
fn ordered_keys_are_found_in_any_case(rt: HostRuntime) -> Result<(), Fail> {
    assert!(rt; is_found_by_order(rt.alloc(), b"Host.example.", b"hOST.EXAMPLE.")?);
    assert!(rt; !is_found_by_order(rt.alloc(), b"Host.example.", b"host.")?);
    Ok(())
}

#[test]
fn hashed_keys_are_found_in_any_case(rt: HostRuntime) -> Result<(), Fail> {
    assert!(rt; is_found_by_hash(rt.alloc(), b"Host.example.", b"hOST.EXAMPLE.")?);
    assert!(rt; !is_found_by_hash(rt.alloc(), b"Host.example.", b"host.")?);
    Ok(())
}

// Whether a map by order finds what was kept under the key.
fn finds<'a>(alloc: Global, key: &'a NameRef<'a>, asked: &'a NameRef<'a>) -> Result<bool, Fail> {
    let mut map = BTreeMap::new(alloc);
    map.insert(NameRefByWire(key), ())?;
    Ok(map.contains_key(&NameRefByWire(asked)))
}

fn is_found_by_wire(alloc: Global, key: &[u8], asked: &[u8]) -> Result<bool, Fail> {
    let key = Name::parse(key)?;
    let asked = Name::parse(asked)?;
    finds(alloc, &NameRef::of(&key), &NameRef::of(&asked))
}

#[test]
fn names_of_messages_are_found_in_any_case(rt: HostRuntime) -> Result<(), Fail> {
    assert!(rt; is_found_by_wire(rt.alloc(), b"Host.example.", b"hOST.EXAMPLE.")?);
    assert!(rt; !is_found_by_wire(rt.alloc(), b"Host.example.", b"host.")?);
    Ok(())
}

fn mx<'b>(octets: &'b [u8], start: usize) -> Option<RdataRef<'b>> {
    let size = octets.len().checked_sub(start)?.min(65_535);
    rdata_ref_at(octets, start, size as u16, RecordType::MX, Class::IN)
}

// Whether the MX record that ends the octets has the RDATA of the mail exchanger mail.example.
fn is_mail_example(octets: &[u8], start: usize) -> bool {
    let Some(own) = mx(octets, start) else {
        return false;
    };
    let Some(plain) = mx(b"\x00\x0a\x04mail\x07example\x00", 0) else {
        return false;
    };
    own == plain
}

#[test]
fn rdata_is_equal_however_its_names_are_compressed(rt: HostRuntime) -> Result<(), Fail> {
    assert!(rt; is_mail_example(b"\x07example\x00\x00\x0a\x04mail\xc0\x00", 9));
    assert!(rt; !is_mail_example(b"\x07Example\x00\x00\x0a\x04mail\xc0\x00", 9));
    Ok(())
}
