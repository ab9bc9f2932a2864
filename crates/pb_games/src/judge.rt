//! Judging a line.

ghost use Rattle.std.specs.Prelude.{◌≡◌, ◌≤◌, ℕ, List, IfErr, IfOk, MatchResult, Ok, length};
ghost use Rattle.pb_moves.specs.Played.{plies_from};
ghost use Rattle.pb_games.specs.Cuts.{IsCut};
ghost use Rattle.pb_games.specs.Reading.{AreRead, AreRefused};
ghost use Rattle.pb_games.specs.Refusing.{Refuses};
ghost use Rattle.pb_games.specs.Submissions.{Submits, Submission, last_setup, plies, setup_after};
ghost use Rattle.pb_games.specs.Tokens.{moves_spelt};
ghost use Rattle.pb_games.specs.declared.fields.TheConstants.{MAX_BYTES};

use crate::fields::{LineFields, cut_line, read_start};
use crate::game::{Outcome, read_outcome};
use crate::line::{Line, Tokens};
use crate::refusal::Refusal;
use crate::visitor::{MoveVisitor, NoVisitor};
use pb_board::Setup;
use pb_moves::playable;

/// Bounds the moves of a game.
pub const MAX_PLIES: u32 = 1024;

/// Reads a line, without its LF, as a submission of a legal game: an id, the result, the FEN record
/// that the game starts from and the moves, as e2e4 and e7e8q with single spaces between them, with
/// a TAB between each two. One final CR is dropped, and no memory is taken.
///
/// # Errors
///
/// The first refusal whose cause stands, in the order of `Refusal`, from `Long` to `Illegal`.
pub fn check_line(line: &[u8]) -> Result<Line<'_>, Refusal>
    ensures found { IfOk result (λ s. Submits line.now s) }
    ensures only { (s : Submission) → Submits line.now s → result ≡ Ok s }
    ensures refused { IfErr result (λ e. Refuses line.now e) }
{
    judge_fields(cut_line(line)?, &mut NoVisitor)
}

/// Judges a line that was cut into these fields, as `check_line` does, and has its moves played by
/// this visitor, each once. What that holds after a refusal means nothing.
pub fn judge_fields<'a, P: MoveVisitor>(
    fields: LineFields<'a>,
    visitor: &mut P,
) -> Result<Line<'a>, Refusal>
    requires { (line : List ℕ) × IsCut line fields }
    ensures found { (line : List ℕ) → IsCut line fields.entry
        → IfOk result (λ s. Submits line s) }
    ensures refused { (line : List ℕ) → IsCut line fields.entry
        → IfErr result (λ e. Refuses line e) }
    ensures holds { IfOk result
        (λ s. P.holds visitor.new s.1.outcome (plies s.1) (last_setup s.1)) }
    ensures fixed { P.fixed visitor.new ≡ P.fixed visitor.old }
{
    let outcome = read_outcome(fields.outcome).ok_or(Refusal::Result)?;
    let start = match read_start(fields.start) {
        Ok(start) => start,
        Err(error) => return Err(Refusal::Fen(error)),
    };
    let setup = start.setup();
    if !playable(&setup) {
        return Err(Refusal::Start);
    }
    let plies = read_moves(visitor, &setup, outcome, fields.moves)?;
    Ok(Line {
        id: fields.id,
        start,
        outcome,
        moves: fields.moves,
        plies,
    })
}

/// Reads the moves of the field, and plays them from this setup while they are legal and not too
/// many. Those after are read for their spelling alone, since `Spelling` is due before `Illegal`.
fn read_moves<P: MoveVisitor>(
    visitor: &mut P,
    start: &Setup,
    outcome: Outcome,
    field: &[u8],
) -> Result<u32, Refusal>
    requires { length field.now ≤ MAX_BYTES }
    ensures read { MatchResult result (AreRead start.now field.now)
        (AreRefused start.now field.now) }
    ensures holds { let moves = moves_spelt field.now in
        IfOk result (λ _. P.holds visitor.new outcome (plies_from start.now moves)
        (setup_after start.now moves)) }
    ensures fixed { P.fixed visitor.new ≡ P.fixed visitor.old }
{
    visitor.begin(start, outcome);
    let mut setup = *start;
    let mut illegal = None;
    let mut count = 0;
    let mut tokens = Tokens::of(field);
    while let Some(read) = tokens.next_move() {
        count += 1;
        let Some(m) = read else {
            return Err(Refusal::Spelling(count));
        };
        if illegal.is_none() && count <= MAX_PLIES && !visitor.play(&mut setup, m) {
            illegal = Some(count);
        }
    }
    if count > MAX_PLIES {
        return Err(Refusal::Plies);
    }
    match illegal {
        Some(number) => Err(Refusal::Illegal(number)),
        None => Ok(count),
    }
}
