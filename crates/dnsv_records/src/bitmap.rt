//! The type bitmap of NSEC and NSEC3 (RFC 4034 4.1.2).

pub mod blocks;

ghost use Rattle.std.specs.Prelude.{◌≡◌, IfOk};
ghost use Rattle.std.specs.Coded.{coded_ℕ};
ghost use Rattle.std.specs.FinSet as set;
ghost use Rattle.dnsv_records.specs.Bitmap.{Types, Bitmap, BitmapFault};
ghost use Rattle.dnsv_records.specs.Bitmap.Blocks.{types_of, AreBlocks};
ghost use Rattle.dnsv_records.specs.Reading.{IsFirstFault};

use crate::bitmap::blocks::{are_blocks, has_bit, window_bits};
use crate::error::{Field, RecordError};
use dnsv_names::RecordType;
use std::marker::Model;

/// A set of record types, kept as the octets that spell it, where they stand.
#[derive(Debug, Drop)]
pub struct TypeBitmap<'b> {
    octets: &'b [u8],
}

impl<'b> Model for TypeBitmap<'b> {
    ghost Value = { Types };

    ghost coded = { set.code coded_ℕ };

    ghost view = { λ bitmap. types_of bitmap.octets.now };

    ghost invariant = { λ bitmap. AreBlocks 0 bitmap.octets.now };
}

impl<'b> TypeBitmap<'b> {
    /// Reads the set that all the octets spell.
    ///
    /// `BadRdata` names the bitmap where they are not the one spelling of a set: a block is torn, has
    /// no octets or more than 32, ends with an octet 0, or its window is not above the one before.
    pub fn read(octets: &'b [u8]) -> Result<TypeBitmap<'b>, RecordError>
        ensures found { IfOk result (Bitmap octets.now) }
        ensures every { (types : Types) → Bitmap octets.now types → result ≡ Ok types }
        ensures fault { IsFirstFault result (BitmapFault octets.now) }
        ensures every_fault { (field : Field) → BitmapFault octets.now field
            → result ≡ Err (RecordError.BadRdata field) }
    {
        if !are_blocks(octets) {
            return Err(RecordError::BadRdata(Field::Bitmap));
        }
        Ok(TypeBitmap { octets })
    }

    /// The octets that spell the set.
    pub fn write(&self) -> &[u8]
        ensures { Bitmap result.now self.now }
    {
        self.octets
    }

    /// Whether the type is in the set.
    pub fn contains(&self, rtype: RecordType) -> bool
        ensures { result ≡ set.contains self.now rtype.0 }
    {
        let bits = window_bits(self.octets, rtype.0 / 256);
        has_bit(bits, usize::from(rtype.0 % 256))
    }
}
