//! Laws of submissions, their lines and their refusals, and of equality (`==`).

ghost use Rattle.std.specs.Prelude.{◌≡◌, ℕ, List};
ghost use Rattle.pb_board.specs.Equality.{IsEquality};
ghost use Rattle.pb_board.specs.declared.piece.Colour.TheVariants.{White};
ghost use Rattle.pb_moves.specs.Attacks.{InCheck};
ghost use Rattle.pb_games.specs.declared.judge.TheConstants.{MAX_PLIES};
ghost use Rattle.pb_games.specs.declared.fields.TheConstants.{MAX_BYTES};
ghost use Rattle.pb_games.specs.declared.id.TheConstants.{MAX_LEN};
ghost use Rattle.pb_games.specs.declared.refusal.Refusal.{Refusal};
ghost use Rattle.pb_games.specs.declared.refusal.Refusal.TheVariants.{Conflict, Full, Memory};
ghost use Rattle.pb_games.specs.Submissions.{Submits, last_setup, Submission, IsGame};
ghost use Rattle.pb_games.specs.Submissions.{submission_text};
ghost use Rattle.pb_games.specs.Worked.{worked_line, worked_submission};
ghost use Rattle.pb_games.specs.Ids.{IsId};
ghost use Rattle.pb_games.specs.Refusing.{Refuses};

use crate::game::Outcome;
use crate::id::Id;
use crate::refusal::Refusal;
use std::hash::Hash;

/// States that the limits of submissions are the numbers of the definitions.
pub fn limits()
    ensures line { MAX_BYTES ≡ 8192 }
    ensures id { MAX_LEN ≡ 64 }
    ensures plies { MAX_PLIES ≡ 1024 }
{}

/// States that no text has two submissions.
pub fn one_submission()
    ensures { (s t : Submission) → IsId s.0 → IsGame s.1 → IsId t.0 → IsGame t.1
        → submission_text s ≡ submission_text t → s ≡ t }
{}

/// States that a line is refused by itself neither for what is held nor for want of memory.
pub fn refused_by_itself()
    ensures conflict { (line : List ℕ) (n : ℕ) → ¬ Refuses line (Conflict n) }
    ensures full { (line : List ℕ) → ¬ Refuses line Full }
    ensures memory { (line : List ℕ) → ¬ Refuses line Memory }
{}

/// States that a line that is refused by itself submits no legal game.
pub fn refused_is_unlawful()
    ensures { (line : List ℕ) (e : Refusal) (s : Submission) → Refuses line e → ¬ Submits line s }
{}

/// States that no line is refused by itself in two ways.
pub fn one_refusal()
    ensures { (line : List ℕ) (d e : Refusal) → Refuses line d → Refuses line e → d ≡ e }
{}

/// States that ids, outcomes and refusals are equal (`==`) exactly where they are one, and that
/// distinct ids hand a hasher distinct bytes.
pub fn equal_values()
    ensures ids { IsEquality ⟦<Id as PartialEq>⟧.eq }
    ensures outcomes { IsEquality ⟦<Outcome as PartialEq>⟧.eq }
    ensures refusals { IsEquality ⟦<Refusal as PartialEq>⟧.eq }
    ensures hashes { (a b : List ℕ) → ⟦<Id as Hash>⟧.hash_input a ≡ ⟦<Id as Hash>⟧.hash_input b
        → a ≡ b }
{}

/// States that a line of Fool's mate submits it, and that White is in check at its end.
pub fn worked()
    ensures lawful { Submits worked_line worked_submission }
    ensures check { InCheck (last_setup worked_submission.1).board White }
{}
