//! Writes down what each ply of a line gives, so that its moves are played once.

ghost use Rattle.std.specs.Prelude.{◌≡◌, ◌≤◌, IfOk, take, vec_capacity};
ghost use Rattle.pb_board.specs.Initial.{initial};
ghost use Rattle.pb_poly.specs.Key.{key as key_by};
ghost use Rattle.pb_games.specs.declared.judge.TheConstants.{MAX_PLIES};

use crate::ply_points::{PlyPoints, points_for};
use crate::rules::Rules;
use pb_board::Setup;
use pb_games::{Game, Line, MAX_PLIES, MoveList, MoveVisitor, Outcome};
use pb_moves::{Move, legal_effect};
use pb_poly::{Table, code_by, key_next, key_of};
use std::alloc::{AllocError, Global};

/// Its buffers have room for the most plies of a game, so that a ply takes no memory.
#[derive(Drop)]
pub(crate) struct Recorder {
    table: Table,
    // The key of the initial array, with which nearly all games begin.
    start_key: u64,
    outcome: Outcome,
    key: u64,
    ply_points: Vec<PlyPoints>,
    moves: Vec<Move>,
    ghost points_room: { MAX_PLIES ≤ vec_capacity ply_points },
    ghost moves_room: { MAX_PLIES ≤ vec_capacity moves },
    ghost start_is: { start_key ≡ key_by table initial },
}

impl Recorder {
    pub(crate) fn new(alloc: Global, table: &Table) -> Result<Recorder, AllocError>
        ensures { IfOk result (λ r. r.table ≡ table.now) }
    {
        Ok(Recorder {
            table: table.clone()?,
            start_key: key_of(table, &Setup::start()),
            outcome: Outcome::Draw,
            key: 0,
            ply_points: Vec::with_capacity(alloc, MAX_PLIES as usize)?,
            moves: Vec::with_capacity(alloc, MAX_PLIES as usize)?,
        })
    }

    pub(crate) fn table(&self) -> &Table
        ensures { result.now ≡ self.now.table }
    {
        &self.table
    }

    /// Gives the game of the line that was judged last.
    pub(crate) fn game(&self, alloc: Global, line: &Line<'_>) -> Result<Game, AllocError>
        requires { self.now.moves.items ≡ line.now.1.moves }
        ensures { IfOk result (λ g. g ≡ line.now.1) }
    {
        Ok(Game {
            start: line.start(),
            outcome: line.outcome(),
            moves: MoveList::of(Vec::from_slice(alloc, &self.moves)?),
        })
    }

    /// Gives what the plies of that game give, as far as they count.
    pub(crate) fn counted(&self, rules: Rules) -> &[PlyPoints]
        ensures { result.now ≡ take rules.plies self.now.ply_points.items }
    {
        &self.ply_points[..self.ply_points.len().min(rules.plies() as usize)]
    }
}

impl MoveVisitor for Recorder {
    ghost use Rattle.pb_accepted.specs.Ledger.{HoldsPlies};

    ghost holds = { HoldsPlies };

    ghost fixed = { λ r. r.table };

    fn begin(&mut self, start: &Setup, outcome: Outcome) {
        self.outcome = outcome;
        self.key = if start.is_start() {
            self.start_key
        } else {
            key_of(&self.table, start)
        };
        self.ply_points.clear();
        self.moves.clear();
    }

    fn play(&mut self, setup: &mut Setup, m: Move) -> bool {
        match legal_effect(setup, m) {
            Some(effect) => {
                let given = PlyPoints {
                    key: self.key,
                    code: code_by(m, &effect),
                    points: points_for(self.outcome, setup.turn()),
                };
                self.key = key_next(&self.table, self.key, setup, m, &effect);
                effect.apply(setup);
                self.ply_points.push_reserved(given);
                self.moves.push_reserved(m);
                true
            }
            None => false,
        }
    }
}
