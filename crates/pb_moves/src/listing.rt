//! The list of legal moves.

ghost use Rattle.std.specs.Prelude.{◌≡◌, ◌+◌, ◌*◌, ◌<◌, ◌↔◌, IsTrue, IfOk, OnOk};
ghost use Rattle.std.specs.Option.{ForSome};
ghost use Rattle.pb_board.specs.Piece.{opponent};
ghost use Rattle.pb_moves.specs.Moved.{IsPromotion, promotion_number};
ghost use Rattle.pb_moves.specs.Listing.{ListsLegal};
ghost use Rattle.pb_moves.specs.Unpinned.{IsUnpinned};
ghost use Rattle.pb_moves.specs.Attackers.{IsSight};
ghost use Rattle.pb_moves.specs.Candidate.{AreOwn, IsOwn, MayPromote, ListsBelow};

use crate::attack::candidates;
use crate::board::{has, own_squares, square_at};
use crate::check::{Sight, sight_of};
use crate::legal::{is_legal_for, is_unpinned, own_piece};
use crate::moves::Move;
use pb_board::{Kind, Piece, Setup, Square};
use std::alloc::{AllocError, Global};

/// Most setups have fewer moves.
const USUAL_MOVES: usize = 64;

/// A setup while its moves are listed, with the bitboards of it that each of them needs.
#[derive(Drop)]
struct Lister<'a> {
    setup: &'a Setup,
    own: u64,
    enemy: Sight,
}

#[derive(Drop)]
struct Mover {
    piece: Piece,
    from: Square,
    unpinned: bool,
}

/// Lists all legal moves, each once. They go by the square left, then the square reached, both from
/// a1 to h8 by index, then the promotion: knight, bishop, rook, queen.
pub fn legal_moves(alloc: Global, setup: &Setup) -> Result<Vec<Move>, AllocError>
    ensures { IfOk result (λ v. ListsLegal setup.now v.items) }
{
    let lister = Lister {
        setup,
        own: own_squares(setup),
        enemy: sight_of(setup, setup.turn().opponent()),
    };
    let mut moves = Vec::with_capacity(alloc, USUAL_MOVES)?;
    for index in 0..64u8 {
        lister.push_from(square_at(index), &mut moves)?;
    }
    Ok(moves)
}

fn may_promote(kind: Kind, to: Square) -> bool
    ensures on_board { to < 64 }
    ensures promotes { IsTrue result ↔ MayPromote kind to }
{
    kind == Kind::Pawn && (to.rank() == 0 || to.rank() == 7)
}

impl<'a> Lister<'a> {
    fn push_from(&self, from: Square, moves: &mut Vec<Move>) -> Result<(), AllocError>
        requires seen { IsSight self.now.setup.now.board self.now.setup.now.board
            (opponent self.now.setup.now.turn) self.now.enemy }
        requires own { AreOwn self.now.own self.now.setup.now }
        requires before { ListsBelow self.now.setup.now moves.old.items (320 * from) }
        ensures { OnOk result (ListsBelow self.now.setup.now moves.new.items (320 * from + 320)) }
    {
        if !has(self.own, from) {
            return Ok(());
        }
        let Some(piece) = own_piece(self.setup, from) else {
            return Ok(());
        };
        let unpinned = is_unpinned(self.setup, self.enemy, from, piece);
        let mover = Mover {
            piece,
            from,
            unpinned,
        };
        let mut rest = candidates(piece, from) & !self.own;
        while rest != 0 {
            let index = rest.trailing_zeros();
            self.push_to(&mover, square_at(index as u8), moves)?;
            rest &= !(1 << index);
        }
        Ok(())
    }

    #[inline(always)]
    fn push_to(&self, mover: &Mover, to: Square, moves: &mut Vec<Move>) -> Result<(), AllocError>
        requires unpinned { IsTrue mover.now.unpinned
            → IsUnpinned self.now.setup.now mover.now.from mover.now.piece }
        requires own { IsOwn self.now.setup.now mover.now.from mover.now.piece }
        requires before { ListsBelow self.now.setup.now moves.old.items
            (320 * mover.now.from + 5 * to) }
        ensures { OnOk result (ListsBelow self.now.setup.now moves.new.items
            (320 * mover.now.from + 5 * to + 5)) }
    {
        let promotes = may_promote(mover.piece.kind, to);
        self.push_legal(mover, to, None, moves)?;
        if !promotes {
            return Ok(());
        }
        self.push_legal(mover, to, Some(Kind::Knight), moves)?;
        self.push_legal(mover, to, Some(Kind::Bishop), moves)?;
        self.push_legal(mover, to, Some(Kind::Rook), moves)?;
        self.push_legal(mover, to, Some(Kind::Queen), moves)?;
        Ok(())
    }

    #[inline(always)]
    fn push_legal(
        &self,
        mover: &Mover,
        to: Square,
        promotion: Option<Kind>,
        moves: &mut Vec<Move>,
    ) -> Result<(), AllocError>
        requires unpinned { IsTrue mover.now.unpinned
            → IsUnpinned self.now.setup.now mover.now.from mover.now.piece }
        requires own { IsOwn self.now.setup.now mover.now.from mover.now.piece }
        requires promotion { ForSome promotion IsPromotion }
        requires before { ListsBelow self.now.setup.now moves.old.items
            (320 * mover.now.from + 5 * to + promotion_number promotion) }
        ensures { OnOk result (ListsBelow self.now.setup.now moves.new.items
            (320 * mover.now.from + 5 * to + promotion_number promotion + 1)) }
    {
        let Some(m) = Move::new(mover.from, to, promotion) else {
            return Ok(());
        };
        if !is_legal_for(self.setup, m, mover.piece, mover.unpinned) {
            return Ok(());
        }
        moves.push(m)?;
        Ok(())
    }
}
