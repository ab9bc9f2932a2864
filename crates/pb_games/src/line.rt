//! Lines that submit legal games, and the moves in them.

ghost use Rattle.std.specs.Prelude.{◌≡◌, ◌∷◌, [], MatchOption, All, length};
ghost use Rattle.pb_games.specs.Tokens.{ReadsFirst, tokens_of, moves_spelt};
ghost use Rattle.std.specs.Iterator.{YieldsFirst, item_count};
ghost use Rattle.pb_moves.specs.Played.{IsSpelled};
ghost use Rattle.pb_games.specs.Submissions.{IsSubmission};

use crate::game::Outcome;
use crate::id::Id;
use pb_board::{Fen, cut_once};
use pb_moves::{Move, read_move, read_plain};
use std::marker::Model;

#[derive(Drop)]
pub(crate) struct Tokens<'a> {
    rest: Option<&'a [u8]>,
}

impl<'a> Model for Tokens<'a> {
    ghost use Rattle.std.specs.Prelude.{List, ℕ};
    ghost use Rattle.pb_games.specs.Tokens.{tokens_left};

    ghost Value = { List (List ℕ) };

    ghost view = { λ a. tokens_left a.rest };
}

impl<'a> Tokens<'a> {
    pub(crate) fn of(field: &'a [u8]) -> Tokens<'a>
        ensures { result ≡ tokens_of field.now }
    {
        Tokens {
            rest: (!field.is_empty()).then_some(field),
        }
    }

    /// Gives `Some(None)` where the next token spells no move.
    #[inline(always)]
    pub(crate) fn next_move(&mut self) -> Option<Option<Move>>
        ensures { MatchOption result ((self.old ≡ []) × (self.new ≡ []))
            (λ read. ReadsFirst self.old read self.new) }
    {
        match self.next_plain() {
            Some(m) => Some(Some(m)),
            None => Some(read_move(self.next_token()?)),
        }
    }

    /// Takes a move of four bytes with a space after it, as most are.
    #[inline(always)]
    fn next_plain(&mut self) -> Option<Move>
        ensures { MatchOption result (self.new ≡ self.old)
            (λ m. ReadsFirst self.old (Some m) self.new) }
    {
        let [a, b, c, d, b' ', rest @ ..] = self.rest? else {
            return None;
        };
        let m = read_plain([*a, *b, *c, *d])?;
        self.rest = Some(rest);
        Some(m)
    }

    fn next_token(&mut self) -> Option<&'a [u8]>
        ensures { MatchOption result ((self.old ≡ []) × (self.new ≡ []))
            (λ token. self.old ≡ token.now ∷ self.new) }
    {
        let text = self.rest?;
        match cut_once(text, b' ') {
            Some((token, rest)) => {
                self.rest = Some(rest);
                Some(token)
            }
            None => {
                self.rest = None;
                Some(text)
            }
        }
    }
}

/// Iterates over the moves of a line, which are read from it again, and takes no memory.
#[derive(Drop)]
pub struct Plies<'a> {
    tokens: Tokens<'a>,
}

impl<'a> Model for Plies<'a> {
    ghost use Rattle.std.specs.Prelude.{List, map, All};
    ghost use Rattle.pb_moves.specs.Moved.{Moved};
    ghost use Rattle.pb_moves.specs.Played.{IsSpelled};
    ghost use Rattle.pb_games.specs.Tokens.{move_spelt};

    ghost Value = { List Moved };

    ghost view = { λ a. map move_spelt a.tokens };

    ghost invariant = { λ a. All IsSpelled a.tokens };
}

impl<'a> Plies<'a> {
    pub(crate) fn of(field: &'a [u8]) -> Plies<'a>
        requires { All IsSpelled (tokens_of field.now) }
        ensures { result ≡ moves_spelt field.now }
    {
        Plies {
            tokens: Tokens::of(field),
        }
    }
}

impl Iterator for Plies<'_> {
    type Item = Move;

    ghost can_next = { λ _. Unit {0} };

    ghost next_gives = { YieldsFirst (λ s. s) };

    ghost remaining = { item_count (λ s. s) };

    fn next(&mut self) -> Option<Move> {
        self.tokens.next_move()?
    }
}

/// Holds a line that submits a legal game under an id.
#[derive(Drop)]
pub struct Line<'a> {
    pub(crate) id: &'a [u8],
    pub(crate) start: Fen,
    pub(crate) outcome: Outcome,
    pub(crate) moves: &'a [u8],
    pub(crate) plies: u32,
}

impl<'a> Model for Line<'a> {
    ghost use Rattle.pb_games.specs.Submissions.{Submission};
    ghost use Rattle.pb_games.specs.Lines.{submission_of, IsChecked};

    ghost Value = { Submission };

    ghost view = { λ a. submission_of a.id.now a.start a.outcome a.moves.now };

    ghost invariant = { λ a. IsChecked (submission_of a.id.now a.start a.outcome a.moves.now)
        a.moves.now a.plies };
}

impl<'a> Line<'a> {
    /// Gives the id.
    pub fn id(&self) -> Id
        ensures { result ≡ self.now.0 }
    {
        Id::of(self.id)
    }

    /// Gives the bytes of the id, in the line.
    pub fn id_bytes(&self) -> &'a [u8]
        ensures { result.now ≡ self.now.0 }
    {
        self.id
    }

    /// Gives the record that the game starts from.
    pub fn start(&self) -> Fen
        ensures value { result ≡ self.now.1.start }
        ensures rules { IsSubmission self.now }
    {
        self.start
    }

    /// Tells how the game ended.
    pub fn outcome(&self) -> Outcome
        ensures { result ≡ self.now.1.outcome }
    {
        self.outcome
    }

    /// Tells how many moves the game has, 0 to 1,024.
    pub fn plies(&self) -> u32
        ensures { result ≡ length self.now.1.moves }
    {
        self.plies
    }

    /// Gives the moves, which are read from the line again.
    pub fn moves(&self) -> Plies<'a>
        ensures { result ≡ self.now.1.moves }
    {
        Plies::of(self.moves)
    }
}
