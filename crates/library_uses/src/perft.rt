//! Sequences of legal moves, by pb_moves: how many there are of each length.

ghost use Rattle.std.specs.Prelude.{◌≡◌, ℕ, ◌-◌, ◌^◌, IfOk, min};
ghost use Rattle.library_uses.specs.Perft.{IsPerft};

use pb_board::Setup;
use pb_moves::{legal_moves, play};
use std::alloc::{AllocError, Global};

/// Counts the sequences of `depth` legal moves from the setup (perft). Where there are more than
/// `u64::MAX` of them, the count is `u64::MAX`.
pub fn perft(alloc: Global, setup: &Setup, depth: u32) -> Result<u64, AllocError>
    ensures { IfOk result (λ count. (number : ℕ) × IsPerft setup.now depth number
        × (count ≡ min number (2 ^ 64 - 1))) }
{
    if depth == 0 {
        return Ok(1);
    }
    let moves = legal_moves(alloc, setup)?;
    let mut count: u64 = 0;
    for m in &moves {
        if let Some(next) = play(setup, *m) {
            count = count.saturating_add(perft(alloc, &next, depth - 1)?);
        }
    }
    Ok(count)
}
