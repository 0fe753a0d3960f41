//! Names in a message, with compression (RFC 1035 4.1.4).
ghost use Rattle.std.specs.Prelude.{◌≡◌, ◌+◌, ◌<◌, ◌≤◌, ℕ, List, length, IfOk, IfErr};
ghost use Rattle.dnsv_names.specs.Name.{Labels, wire};
ghost use Rattle.dnsv_message.specs.NameAt.{NameFrom, NameFaultFrom, NumberAt, FaultHere};
ghost use Rattle.dnsv_message.specs.NameAt.Steps.{StepAt};

use crate::errors::NameFault;
use arrayvec::ArrayVec;
use dnsv_names::{LABEL_LIMIT, Name, WIRE_LIMIT, u16_at};

/// How many pointers a name follows at most.
const POINTER_LIMIT: usize = 32;

/// The top bits of a pointer, as the number of its two octets has them.
pub const POINTER_BITS: usize = 0xc000;

/// How the spelling of a name goes on at a place.
#[derive(Clone, Copy)]
pub enum Step {
    /// The name ends here.
    Root,
    /// A label of this many octets stands behind its length.
    Label(usize),
    /// The name goes on at this place.
    Pointer(usize),
}

/// Where the reader of a name is.
#[derive(Clone, Copy)]
pub struct Walk {
    /// The place of the next length octet or pointer.
    pub place: usize,
    /// Where the current run of labels began.
    pub run: usize,
    /// How many pointers may still be followed.
    pub pointers: usize,
}

/// Reads the name at a place, and says at which place what follows it stands.
///
/// A name costs at most 127 labels and 32 pointers, however long the message is.
pub fn name_at(octets: &[u8], place: usize) -> Result<(Name, usize), NameFault>
    ensures found { IfOk result (λ found. NameFrom octets.now place found.0 found.1) }
    ensures within { IfOk result (λ found. found.1 ≤ length octets.now) }
    ensures fault { IfErr result (NameFaultFrom octets.now place) }
{
    let mut wire: ArrayVec<u8, WIRE_LIMIT> = ArrayVec::new();
    let mut walk = Walk {
        place,
        run: place,
        pointers: POINTER_LIMIT,
    };
    let mut end = None;
    'steps: loop {
        match step_at(octets, walk, wire.len())? {
            Step::Root => break,
            Step::Label(length) => {
                let next = walk.place + (1 + length);
                wire.try_extend_from_slice(&octets[walk.place..next])
                    .unwrap();
                walk.place = next;
            }
            Step::Pointer(target) => {
                end = end.or(Some(walk.place + 2));
                walk = Walk {
                    place: target,
                    run: target,
                    pointers: walk.pointers - 1,
                };
            }
        }
    }
    wire.push(0);
    let (name, _) = Name::read(&wire).unwrap();
    Ok((name, end.unwrap_or(walk.place + 1)))
}

/// How many octets the wire form of the name at a place has, and at which place what follows it stands.
pub fn name_end(octets: &[u8], place: usize) -> Result<(u8, usize), NameFault>
    ensures found { IfOk result (λ found. (labels : Labels) × NameFrom octets.now place labels found.1
        × (found.0 ≡ length (wire labels))) }
    ensures within { IfOk result (λ found. found.1 ≤ length octets.now) }
    ensures fault { IfErr result (NameFaultFrom octets.now place) }
{
    let mut size = 0;
    let mut walk = Walk {
        place,
        run: place,
        pointers: POINTER_LIMIT,
    };
    let mut after = None;
    'steps: loop {
        match step_at(octets, walk, size)? {
            Step::Root => break,
            Step::Label(length) => {
                size += 1 + length;
                walk.place += 1 + length;
            }
            Step::Pointer(target) => {
                after = after.or(Some(walk.place + 2));
                walk.place = target;
                walk.run = target;
                walk.pointers -= 1;
            }
        }
    }
    Ok(((size + 1) as u8, after.unwrap_or(walk.place + 1)))
}

/// How the name goes on, of which `size` octets are written out already.
fn step_at(octets: &[u8], walk: Walk, size: usize) -> Result<Step, NameFault>
    requires { size ≤ WIRE_LIMIT }
    ensures step { IfOk result (StepAt octets.now walk size) }
    ensures fault { IfErr result (FaultHere octets.now walk.place walk.run walk.pointers size) }
{
    if octets.len() <= walk.place {
        return Err(NameFault::Short);
    }
    let octet = octets[walk.place] as usize;
    if octet == 0 {
        Ok(Step::Root)
    } else if octet <= LABEL_LIMIT {
        label_step(octets, walk, octet, size)
    } else if octet < 0xc0 {
        Err(NameFault::BadLabel)
    } else {
        pointer_step(octets, walk, size)
    }
}

/// The step at a label's length.
fn label_step(octets: &[u8], walk: Walk, length: usize, size: usize) -> Result<Step, NameFault>
    requires size { size ≤ WIRE_LIMIT }
    requires octet { NumberAt octets.now walk.place 1 length }
    requires not_root { 0 < length }
    requires small { length ≤ LABEL_LIMIT }
    ensures step { IfOk result (StepAt octets.now walk size) }
    ensures fault { IfErr result (FaultHere octets.now walk.place walk.run walk.pointers size) }
{
    if octets.len() - walk.place < 1 + length {
        Err(NameFault::Short)
    } else if WIRE_LIMIT < size + (1 + length) + 1 {
        Err(NameFault::LongName)
    } else {
        Ok(Step::Label(length))
    }
}

/// The step at a pointer's first octet.
fn pointer_step(octets: &[u8], walk: Walk, size: usize) -> Result<Step, NameFault>
    requires { (octet : ℕ) × NumberAt octets.now walk.place 1 octet × (192 ≤ octet) }
    ensures step { IfOk result (StepAt octets.now walk size) }
    ensures fault { IfErr result (FaultHere octets.now walk.place walk.run walk.pointers size) }
{
    if octets.len() - walk.place < 2 {
        return Err(NameFault::Short);
    }
    let target = u16_at(octets, walk.place) as usize - POINTER_BITS;
    if walk.run <= target {
        Err(NameFault::BadPointer)
    } else if walk.pointers == 0 {
        Err(NameFault::TooManyPointers)
    } else {
        Ok(Step::Pointer(target))
    }
}
