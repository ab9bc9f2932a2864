//! Receives the moves of a line while the line is judged.

ghost use Rattle.std.specs.Prelude.{◌≡◌, ◌↔◌, ◌++◌, ◌∷◌, [], List, IsTrue};
ghost use Rattle.pb_board.specs.Position.{Position};
ghost use Rattle.pb_moves.specs.Legal.{Legal};
ghost use Rattle.pb_moves.specs.Played.{Ply};
ghost use Rattle.pb_moves.specs.Successor.{after};
ghost use Rattle.pb_games.specs.declared.game.Outcome.{Outcome};
ghost use Rattle.pb_games.specs.Reading.{CanTake};

use crate::game::Outcome;
use pb_board::Setup;
use pb_moves::{Move, try_play};

/// Plays each move of a game while its line is judged, and keeps what it likes of them.
pub trait MoveVisitor {
    ghost use Rattle.std.specs.Prelude.{ℕ, List};
    ghost use Rattle.pb_board.specs.Position.{Position};
    ghost use Rattle.pb_moves.specs.Played.{Ply};
    ghost use Rattle.pb_games.specs.declared.game.Outcome.{Outcome};
    ghost use Rattle.pb_games.specs.Reading.{CanTake};

    /// What it holds after these plies of a game with this outcome, which have led to this setup.
    ghost holds: { Self → Outcome → List Ply → Position → Type 0 };

    /// What `begin` and `play` leave alone.
    ghost fixed: { Self → List ℕ };

    /// Forgets what was played before: a game with this outcome begins here.
    fn begin(&mut self, start: &Setup, outcome: Outcome)
        ensures holds { holds self.new outcome [] start.now }
        ensures fixed { fixed self.new ≡ fixed self.old };

    /// Plays the move where it is legal, and tells whether it is. Else the setup stays.
    fn play(&mut self, setup: &mut Setup, m: Move) -> bool
        requires { CanTake (holds self.old) setup.old }
        ensures legal { IsTrue result ↔ Legal setup.old m }
        ensures played { IsTrue result → (setup.new ≡ after setup.old m) }
        ensures stays { ¬ IsTrue result → (setup.new ≡ setup.old) }
        ensures holds { IsTrue result → (o : Outcome) (ps : List Ply)
            → holds self.old o ps setup.old
            → holds self.new o (ps ++ (setup.old, m) ∷ []) setup.new }
        ensures fixed { fixed self.new ≡ fixed self.old };
}

/// Plays the moves, and keeps nothing of them.
#[derive(Drop)]
pub struct NoVisitor;

impl MoveVisitor for NoVisitor {
    ghost use Rattle.std.specs.Prelude.{[]};

    ghost holds = { λ _ _ _ _. Unit {0} };

    ghost fixed = { λ _. [] };

    fn begin(&mut self, _start: &Setup, _outcome: Outcome) {}

    fn play(&mut self, setup: &mut Setup, m: Move) -> bool {
        try_play(setup, m)
    }
}
