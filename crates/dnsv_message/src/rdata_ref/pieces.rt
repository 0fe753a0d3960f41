//! The octets of an RDATA, piece by piece, through the pointers of its names (RFC 1035 4.1.4).
ghost use Rattle.std.specs.Prelude.{◌≡◌, ◌≤◌, ◌++◌, [], length};
ghost use Rattle.dnsv_message.specs.Following.Rdata.{written_at};
ghost use Rattle.dnsv_message.specs.Following.Pieces.{NamesStand};

use crate::name_at::name_end;
use crate::name_ref::following::{behind_pointers, next_label};
use std::marker::Model;

/// Some names of an RDATA and the octets behind them, in pieces that stand together in the message: labels, each
/// with its length, roots, and the octets. They are seen as what they spell, which is left. They take no memory.
#[derive(Debug, Drop)]
pub struct Pieces<'b> {
    octets: &'b [u8],
    /// Where the next piece stands.
    place: usize,
    /// Where what follows the name stands.
    behind: usize,
    /// How many names are left, the one at the place counted.
    names: usize,
    /// Where the RDATA ends.
    limit: usize,
}

impl<'b> Model for Pieces<'b> {
    ghost use Rattle.std.specs.Prelude.{ℕ, List};

    ghost Value = { List ℕ };

    ghost use Rattle.dnsv_message.specs.Following.Pieces.{pieces_from, PiecesStand};

    ghost view = { λ pieces. pieces_from pieces.names pieces.octets.now pieces.place pieces.behind pieces.limit };

    ghost invariant = { λ pieces. PiecesStand pieces.names pieces.octets.now pieces.place pieces.behind pieces.limit };
}

impl<'b> Pieces<'b> {
    /// So many names from the place on, and the octets behind them up to the limit.
    pub fn new(octets: &'b [u8], place: usize, names: usize, limit: usize) -> Pieces<'b>
        requires names { NamesStand names octets.now place limit }
        requires limit { limit ≤ length octets.now }
        ensures { result ≡ written_at names octets.now place limit }
    {
        if names == 0 {
            return Pieces {
                octets,
                place,
                behind: limit,
                names,
                limit,
            };
        }
        let (_, behind) = name_end(octets, place).unwrap();
        Pieces {
            octets,
            place: behind_pointers(octets, place),
            behind,
            names,
            limit,
        }
    }

    /// What is left of a piece, or where nothing is, the next piece.
    pub fn filled(&mut self, piece: &'b [u8]) -> &'b [u8]
        ensures same { piece.now ++ self.old ≡ result.now ++ self.new }
        ensures end { result.now ≡ [] → self.new ≡ [] }
    {
        if piece.is_empty() {
            self.next_piece()
        } else {
            piece
        }
    }

    /// The next piece, which is empty only where nothing is left.
    fn next_piece(&mut self) -> &'b [u8]
        ensures same { self.old ≡ result.now ++ self.new }
        ensures end { result.now ≡ [] → self.new ≡ [] }
    {
        let octets = self.octets;
        let place = self.place;
        if self.names == 0 {
            self.place = self.limit;
            return &octets[place..self.limit];
        }
        if octets[place] == 0 {
            *self = Pieces::new(octets, self.behind, self.names - 1, self.limit);
            return &octets[place..place + 1];
        }
        self.place = next_label(octets, place);
        &octets[place..place + (1 + octets[place] as usize)]
    }
}
