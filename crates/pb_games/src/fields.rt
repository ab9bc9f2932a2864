//! The four fields of a line, and the record that the third spells.

ghost use Rattle.std.specs.Prelude.{◌≡◌, ◌≢◌, ◌≤◌, ◌∷◌, [], IfErr, IfOk, IfSome, IsOk, MatchOption};
ghost use Rattle.std.specs.Prelude.{length, ◌↔◌, IsTrue};
ghost use Rattle.pb_board.specs.Fields.{fields, space};
ghost use Rattle.pb_games.specs.Cuts.{IsCut, fields_of};
ghost use Rattle.pb_games.specs.Ids.{IsId};
ghost use Rattle.pb_games.specs.declared.fields.LineFields.{LineFields};
ghost use Rattle.pb_games.specs.Refusing.{Refuses};
ghost use Rattle.pb_board.specs.Position.{IsRecord};
ghost use Rattle.pb_board.specs.Refusal.{IsDueFen, IsFirstOf, fen_errors};
ghost use Rattle.pb_board.specs.Text.{fen_text};

use crate::id::{Id, is_id};
use crate::refusal::Refusal;
use pb_board::{Fen, FenError, Setup, cut_once, read_fen, without_return};

// A final CR counts.
const MAX_BYTES: usize = 8192;

/// Holds the four fields of a line.
#[derive(Clone, Copy)]
pub struct LineFields<'a> {
    pub id: &'a [u8],
    pub outcome: &'a [u8],
    pub start: &'a [u8],
    pub moves: &'a [u8],
}

impl LineFields<'_> {
    /// Gives the id.
    pub fn id(&self) -> Id
        requires { IsId self.now.id.now }
        ensures { result ≡ self.now.id.now }
    {
        Id::of(self.id)
    }
}

/// Cuts a line, without its LF, into four fields of which the first is an id, or refuses it as
/// `Long`, `Shape` or `Id`.
pub fn cut_line(line: &[u8]) -> Result<LineFields<'_>, Refusal>
    ensures cut { IfOk result (λ f. IsCut line.now f) }
    ensures each { (f : LineFields) → IsCut line.now f → IsOk result }
    ensures refused { IfErr result (λ e. Refuses line.now e) }
{
    if line.len() > MAX_BYTES {
        return Err(Refusal::Long);
    }
    let fields = cut_fields(line).ok_or(Refusal::Shape)?;
    if !is_id(fields.id) {
        return Err(Refusal::Id);
    }
    Ok(fields)
}

fn cut_fields(line: &[u8]) -> Option<LineFields<'_>>
    ensures cut { MatchOption result (length (fields_of line.now) ≢ 4)
        (λ f. fields_of line.now ≡ f.id.now ∷ f.outcome.now ∷ f.start.now ∷ f.moves.now ∷ []) }
    ensures short { IfSome result (λ f. length f.moves.now ≤ length line.now) }
{
    let (id, rest) = cut_once(without_return(line), b'\t')?;
    let (outcome, rest) = cut_once(rest, b'\t')?;
    let (start, moves) = cut_once(rest, b'\t')?;
    let None = cut_once(moves, b'\t') else {
        return None;
    };
    Some(LineFields {
        id,
        outcome,
        start,
        moves,
    })
}

const INITIAL_TEXT: &[u8] = b"rnbqkbnr/pppppppp/8/8/8/8/PPPPPPPP/RNBQKBNR w KQkq - 0 1";

/// Not inlined: else the caller reserves stack for both records.
#[inline(never)]
pub(crate) fn read_start(text: &[u8]) -> Result<Fen, FenError>
    ensures found { IfOk result (λ f. IsRecord f × (text.now ≡ fen_text f)) }
    ensures refused { IfErr result (IsFirstOf fen_errors (IsDueFen (fields space text.now))) }
{
    if text == INITIAL_TEXT {
        Ok(Fen::with_clocks(Setup::start(), 0, 1))
    } else {
        read_fen(text)
    }
}

pub(crate) fn is_text_of(text: &[u8], fen: &Fen) -> bool
    ensures { IsTrue result ↔ (text.now ≡ fen_text fen.now) }
{
    let setup = fen.setup();
    match read_start(text) {
        Ok(start) => start.half() == fen.half()
            && start.full() == fen.full()
            && start.setup() == setup,
        Err(_) => false,
    }
}
