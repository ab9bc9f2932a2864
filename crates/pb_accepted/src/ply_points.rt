//! What the plies of a game give to the points of moves.

ghost use Rattle.std.specs.Prelude.{◌≡◌, ◌≤◌, ◌+◌, ◌++◌, ◌*◌, ◌^◌, ℕ, IsSome, OnOk, All, length};
ghost use Rattle.std.specs.Prelude.{false, vec_capacity, vec_len, ◌==◌, ◌&&◌};
ghost use Rattle.pb_points.specs.Tally.{held};
ghost use Rattle.pb_accepted.specs.Counting.{points_for as points_for_by, times};
ghost use Rattle.pb_accepted.specs.Ledger.{is_lost, lost as lost_of, rowed, with_ply_points};

use pb_board::Colour;
use pb_games::Outcome;
use pb_points::Tally;
use std::alloc::AllocError;
use std::marker::Model;

#[derive(Clone, Copy)]
pub(crate) struct PlyPoints {
    /// The key of the setup before the move.
    pub(crate) key: u64,
    pub(crate) code: u16,
    /// 2 for a ply of the side that won, 1 in a drawn game, 0 for the side that lost.
    pub(crate) points: u8,
}

/// For each outcome, what a ply of White and one of Black give. Looked up, so no branch is made.
const POINTS: [[u8; 2]; 3] = [[2, 0], [0, 2], [1, 1]];

pub(crate) fn points_for(outcome: Outcome, side: Colour) -> u8
    ensures { result ≡ points_for_by outcome side }
{
    POINTS[outcome as usize][side as usize]
}

/// Tells whether a ply stands beside the tally, and has no row in it.
#[inline(always)]
fn is_lost(given: &PlyPoints, least: u32) -> bool
    ensures { result ≡ is_lost least given.now }
{
    least == 1 && given.points == 0
}

/// Makes a row for each ply that has one, and room for the others beside the tally.
pub(crate) fn make_room<T: Tally>(
    tally: &mut T,
    lost: &mut Vec<LostPly>,
    ply_points: &[PlyPoints],
    least: u32,
) -> Result<(), AllocError>
    ensures same { (k c : ℕ) → held (T.content tally.new) k c ≡ held (T.content tally.old) k c }
    ensures same_lost { lost.new.items ≡ lost.old.items }
    ensures rows { OnOk result (All (λ r. is_lost least r ≡ false
        → IsSome (T.content tally.new r.key r.code)) ply_points.now) }
    ensures room { OnOk result (vec_len lost.new + length (lost_of least ply_points.now)
        ≤ vec_capacity lost.new) }
{
    let mut count = 0;
    for given in ply_points {
        if is_lost(given, least) {
            count += 1;
        } else {
            tally.ensure(given.key, given.code)?;
        }
    }
    lost.reserve(count)
}

pub(crate) fn add_ply_points<T: Tally>(
    tally: &mut T,
    lost: &mut Vec<LostPly>,
    ply_points: &[PlyPoints],
    least: u32,
)
    requires rows { All (λ r. is_lost least r ≡ false → IsSome (T.content tally.old r.key r.code))
        ply_points.now }
    requires room { vec_len lost.old + length (lost_of least ply_points.now)
        ≤ vec_capacity lost.old }
    requires small { All (λ r. r.points ≤ 2) ply_points.now }
    requires points_fit { (k c : ℕ) → (held (T.content tally.old) k c).points
        + 2 * length ply_points.now ≤ 2 ^ 63 }
    requires times_fit { (k c : ℕ) → (held (T.content tally.old) k c).times + length ply_points.now
        ≤ 2 ^ 63 }
    ensures rows { (k c : ℕ) → held (T.content tally.new) k c
        ≡ with_ply_points (rowed least ply_points.now) k c (held (T.content tally.old) k c) }
    ensures lost { lost.new.items ≡ lost.old.items ++ lost_of least ply_points.now }
{
    for given in ply_points {
        if is_lost(given, least) {
            lost.push_reserved(LostPly::of(given));
        } else {
            tally.add(given.key, given.code, u64::from(given.points));
        }
    }
}

/// Takes 10 bytes, and not 16, as a row of the tally does.
#[derive(Drop)]
pub(crate) struct LostPly {
    key: [u8; 8],
    code: u16,
}

impl Model for LostPly {
    ghost use Rattle.std.specs.Int.{from_le_bytes, w64};
    ghost use Rattle.pb_accepted.specs.declared.ply_points.PlyPoints.{PlyPoints};

    ghost Value = { PlyPoints };

    ghost view = { λ p. record { key = from_le_bytes w64 p.key; code = p.code; points = 0 } };
}

impl LostPly {
    #[inline(always)]
    pub(crate) fn of(given: &PlyPoints) -> LostPly
        requires { given.now.points ≡ 0 }
        ensures { result ≡ given.now }
    {
        LostPly {
            key: given.key.to_le_bytes(),
            code: given.code,
        }
    }

    #[inline(always)]
    fn is_of(&self, key: u64, code: u16) -> bool
        ensures { result ≡ (self.now.key == key && self.now.code == code) }
    {
        u64::from_le_bytes(self.key) == key && self.code == code
    }
}

pub(crate) fn lost_times(lost: &[LostPly], key: u64, code: u16) -> u64
    ensures { result ≡ times lost.now key code }
{
    let mut count = 0;
    for ply in lost {
        if ply.is_of(key, code) {
            count += 1;
        }
    }
    count
}
