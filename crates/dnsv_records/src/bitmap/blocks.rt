//! Walks over the blocks of a type bitmap (RFC 4034 4.1.2).
ghost use Rattle.std.specs.Prelude.{◌≡◌, ◌<◌, ◌≤◌, ◌++◌, List, ℕ, length, IfSome, IsSome, MatchBool};
ghost use Rattle.dnsv_records.specs.Bitmap.{Block, block_octets, has_bit};
ghost use Rattle.dnsv_records.specs.Bitmap.Blocks.{AreBlocks, BlockAtFront, IsGoodBlock, bits_of, blocks_of};

/// How many octets the bits of a window take at most.
const BITS_LIMIT: usize = 32;

/// Whether the octets are blocks with rising windows, each without octets that it doesn't need.
pub fn are_blocks(octets: &[u8]) -> bool
    ensures { MatchBool result (AreBlocks 0 octets.now) (¬ AreBlocks 0 octets.now) }
{
    let mut place = 0;
    let mut least = 0;
    while place < octets.len() {
        let Some(size) = block_size(&octets[place..], least) else {
            return false;
        };
        least = u16::from(octets[place]) + 1;
        place += size;
    }
    true
}

/// How many octets the block at the front takes; `None` where no good block is there with a window
/// that is at least `least`.
fn block_size(octets: &[u8], least: u16) -> Option<usize>
    ensures found { IfSome result (BlockAtFront octets.now least) }
    ensures every { (block : Block) (rest : List ℕ) → IsGoodBlock block → least ≤ block.window
        → octets.now ≡ block_octets block ++ rest → IsSome result }
{
    if octets.len() < 2 || u16::from(octets[0]) < least {
        return None;
    }
    let count = usize::from(octets[1]);
    let size = 2 + count;
    if count == 0 || count > BITS_LIMIT || octets.len() < size || octets[size - 1] == 0 {
        return None;
    }
    Some(size)
}

/// The bits of the window's block, none where it has no block.
pub fn window_bits(octets: &[u8], window: u16) -> &[u8]
    requires { AreBlocks 0 octets.now }
    ensures { result.now ≡ bits_of (blocks_of octets.now) window }
{
    let mut place = 0;
    while place < octets.len() {
        let start = place + 2;
        let end = start + usize::from(octets[place + 1]);
        if u16::from(octets[place]) == window {
            return &octets[start..end];
        }
        place = end;
    }
    &[]
}

/// Whether bit `bit` is set, counted from the highest bit of the first octet.
pub fn has_bit(bits: &[u8], bit: usize) -> bool
    ensures { result ≡ has_bit bits.now bit }
{
    let place = bit / 8;
    place < bits.len() && (bits[place] >> (7 - bit % 8)) % 2 == 1
}
