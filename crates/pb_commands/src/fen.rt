//! The command `fen`: moves are played from a FEN record, and the record after them is written.
ghost use Rattle.std.specs.Prelude.{◌≡◌, All, List, MatchOption, MatchResult, Ok, true};
ghost use Rattle.pb_board.specs.Position.{IsRecord};
ghost use Rattle.pb_moves.specs.Clocks.{record_after as next_record};
ghost use Rattle.pb_moves.specs.Legal.{Legal};
ghost use Rattle.pb_commands.specs.FenShown.{texts, FenShown, MayPlay, AllZip, BreaksAt, fen_text};
ghost use Rattle.pb_commands.specs.FenShown.{Moved, IsSpelled, Plays, Spells};
ghost use Rattle.pb_commands.specs.Judged.{PutsOrEnds, StopsOrEnds, refused_verdict, with_end};

use crate::stop::{Refused, Stopped, accept, show_line, unless_refused};
use pb_board::{Fen, read_fen};
use pb_io::{Fault, Sink};
use pb_moves::{advance, read_move};
use std::alloc::Global;

/// Shows the record after the moves, or why record, spelling or move is refused. `Write` is the
/// only fault (the law `fen_ends`).
pub fn answer_fen<K: Sink>(fen: &[u8], moves: &[&str], sink: &mut K) -> Result<bool, Stopped>
    ensures { StopsOrEnds (FenShown fen.now (texts moves.now)) (K.state sink.old)
        (K.state sink.new) result }
{
    let last = accept(sink, record_after(fen, moves))?;
    show_line(sink, &[last.text().as_bytes()])?;
    Ok(true)
}

/// Does what `answer_fen` does, and answers whether the input was taken.
pub fn run_fen<K: Sink>(
    _alloc: Global,
    fen: &[u8],
    moves: &[&str],
    sink: &mut K,
) -> Result<bool, Fault>
    ensures { PutsOrEnds (FenShown fen.now (texts moves.now)) (K.state sink.old) (K.state sink.new)
        result }
{
    Ok(unless_refused(answer_fen(fen, moves, sink))?.is_some())
}

fn record_after(fen: &[u8], moves: &[&str]) -> Result<Fen, Refused>
    ensures { MatchResult result
        (λ last. FenShown fen.now (texts moves.now) (Ok (true, with_end (fen_text last))))
        (λ why. FenShown fen.now (texts moves.now) (refused_verdict why)) }
{
    let start = read_fen(fen).map_err(Refused::Fen)?;
    if let Some(number) = misspelt(moves) {
        return Err(Refused::Spelling(number));
    }
    play_moves(start, moves).map_err(Refused::Illegal)
}

/// The number, from 1, of the first text that spells no move.
fn misspelt(move_texts: &[&str]) -> Option<usize>
    ensures { MatchOption result (All IsSpelled (texts move_texts.now))
        (BreaksAt (All IsSpelled) (texts move_texts.now)) }
{
    for (index, text) in move_texts.iter().enumerate() {
        if read_move(text.as_bytes()).is_none() {
            return Some(index + 1);
        }
    }
    None
}

fn play_moves(start: Fen, move_texts: &[&str]) -> Result<Fen, usize>
    requires lawful { IsRecord start }
    requires spelt { All IsSpelled (texts move_texts.now) }
    ensures { (moves : List Moved) × AllZip Spells (texts move_texts.now) moves
        × MatchResult result (λ last. Plays start moves last) (BreaksAt (MayPlay start) moves) }
{
    let mut record = start;
    for (index, text) in move_texts.iter().enumerate() {
        let Some(next) = play_move(&record, text) else {
            return Err(index + 1);
        };
        record = next;
    }
    Ok(record)
}

fn play_move(before: &Fen, text: &str) -> Option<Fen>
    ensures { MatchOption result
        (IsSpelled text.now → (m : Moved) × Spells text.now m × ¬ Legal before.now.setup m)
        (λ next. (m : Moved) × Spells text.now m × Legal before.now.setup m
        × (next ≡ next_record before.now m)) }
{
    let m = read_move(text.as_bytes())?;
    advance(before, m)
}
