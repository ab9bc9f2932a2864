//! Games: how they end, their moves, where they start, and whether a line repeats one.

ghost use Rattle.std.specs.Prelude.{◌≡◌, ◌≢◌, ◌↔◌, All, IsTrue, MatchOption, map};
ghost use Rattle.pb_moves.specs.Moved.{IsMove};
ghost use Rattle.pb_moves.specs.Spelling.{spelling};
ghost use Rattle.pb_games.specs.Repeat.{AreFieldsOf};
ghost use Rattle.pb_games.specs.Results.{outcome_text};
ghost use Rattle.pb_games.specs.Tokens.{tokens_of};

use crate::fields::{LineFields, is_text_of};
use crate::line::Tokens;
use pb_board::Fen;
use pb_moves::Move;
use std::marker::Model;

/// Tells how a game ended.
#[derive(Clone, Copy, Debug, PartialEq, Eq, Hash)]
pub enum Outcome {
    /// White won, `1-0`.
    White,
    /// Black won, `0-1`.
    Black,
    /// Nobody won, `1/2-1/2`.
    Draw,
}

impl Outcome {
    /// Gives the text of the result (PGN Standard 1994, section 8.1.1.7).
    pub fn text(self) -> &'static [u8]
        ensures { result.now ≡ outcome_text self }
    {
        match self {
            Outcome::White => b"1-0",
            Outcome::Black => b"0-1",
            Outcome::Draw => b"1/2-1/2",
        }
    }
}

pub(crate) fn read_outcome(text: &[u8]) -> Option<Outcome>
    ensures { MatchOption result
        ((outcome : Outcome) → text.now ≢ outcome_text outcome)
        (λ outcome. text.now ≡ outcome_text outcome) }
{
    match text {
        b"1-0" => Some(Outcome::White),
        b"0-1" => Some(Outcome::Black),
        b"1/2-1/2" => Some(Outcome::Draw),
        _ => None,
    }
}

/// Lists the moves of a game in the order in which they are played.
#[derive(Drop)]
pub struct MoveList {
    moves: Vec<Move>,
}

impl Model for MoveList {
    ghost use Rattle.std.specs.Prelude.{List};
    ghost use Rattle.pb_moves.specs.Moved.{Moved};

    ghost Value = { List Moved };

    ghost view = { λ a. a.moves.items };
}

impl MoveList {
    /// Makes a list of these moves.
    pub fn of(moves: Vec<Move>) -> MoveList
        ensures { result ≡ moves.items }
    {
        MoveList { moves }
    }

    /// Gives the moves.
    pub fn as_slice(&self) -> &[Move]
        ensures { result.now ≡ self.now }
    {
        &self.moves
    }
}

/// Holds a game. Whether its moves are legal is judged where a line is read (`check_line`).
#[derive(Drop)]
pub struct Game {
    /// The record before the first move, with its clocks.
    pub start: Fen,
    /// How the game ended.
    pub outcome: Outcome,
    /// The moves, in order.
    pub moves: MoveList,
}

/// Tells whether the fields after the id are those of this game, without playing its moves.
pub fn repeats(fields: &LineFields<'_>, game: &Game) -> bool
    requires { All IsMove game.now.moves }
    ensures { IsTrue result ↔ AreFieldsOf game.now fields.now }
{
    fields.outcome == game.outcome.text()
        && is_text_of(fields.start, &game.start)
        && spell(fields.moves, game.moves.as_slice())
}

fn spell(field: &[u8], moves: &[Move]) -> bool
    requires { All IsMove moves.now }
    ensures { IsTrue result ↔ (tokens_of field.now ≡ map spelling moves.now) }
{
    let mut tokens = Tokens::of(field);
    for m in moves {
        if tokens.next_move() != Some(Some(*m)) {
            return false;
        }
    }
    tokens.next_move().is_none()
}
