//! Reads FEN records: ranks, boards, the fields after them, and whole records.

ghost use Rattle.std.specs.Prelude.{◌≡◌, ◌≢◌, ◌↔◌, List, length, MatchOption, ◌<◌, ◌∷◌, ◌++◌, []};
ghost use Rattle.std.specs.Prelude.{ℕ, Option, MatchBool, IfSome, ◌^◌, decimal, map, take, Ok};
ghost use Rattle.std.specs.Prelude.{IfOk, IfErr, MatchResult};
ghost use Rattle.pb_board.specs.Board.{Place};
ghost use Rattle.pb_board.specs.Ranks.{RankText};
ghost use Rattle.pb_board.specs.Text.{piece_letter, placement_text, turn_text, castling_text};
ghost use Rattle.pb_board.specs.Text.{en_passant_text, fen_text, setup_fields};
ghost use Rattle.pb_board.specs.declared.piece.Piece.{Piece};
ghost use Rattle.pb_board.specs.declared.piece.Colour.{Colour};
ghost use Rattle.pb_board.specs.declared.setup.Rights.{Rights};
ghost use Rattle.pb_board.specs.Position.{OnEnPassantRank, Position, Record, IsSetup, IsRecord};
ghost use Rattle.pb_board.specs.First.{NotFirst};
ghost use Rattle.pb_board.specs.Fields.{fields, space};
ghost use Rattle.pb_board.specs.FourFields.{SpellFour};
ghost use Rattle.pb_board.specs.Refusal.{IsDueFen, IsFirstFault, IsFirstOf, fen_errors, of_setup};

use crate::fen::Fen;
use crate::fields::{cut_fields, cut_once};
use crate::piece::{Colour, Kind, Piece};
use crate::refusal::{FenError, SetupError};
use crate::setup::{Rights, Setup};
use crate::setup_rules::en_passant_rank;
use crate::square::Square;

fn piece_of(letter: u8) -> Option<Piece>
    ensures { MatchOption result ((p : Piece) → piece_letter p ≢ letter) (λ p.
        letter ≡ piece_letter p) }
{
    let kind = Kind::of_letter(letter.to_ascii_lowercase())?;
    let colour = if letter.is_ascii_uppercase() {
        Colour::White
    } else {
        Colour::Black
    };
    Some(Piece { colour, kind })
}

pub(crate) fn read_rank(text: &[u8]) -> Option<[Option<Piece>; 8]>
    ensures { MatchOption result ((s : List Place) → length s ≡ 8 → ¬ RankText s text.now)
        (λ squares. (s : List Place) → length s ≡ 8 → (RankText s text.now ↔ s ≡ squares)) }
{
    let mut squares = [None; 8];
    let mut file = 0;
    let mut after_digit = false;
    for byte in text {
        if let b'1'..=b'8' = *byte {
            let run = (*byte - b'0') as usize;
            if after_digit || file + run > 8 {
                return None;
            }
            file += run;
            after_digit = true;
        } else {
            let piece = piece_of(*byte)?;
            if file == 8 {
                return None;
            }
            squares[file] = Some(piece);
            file += 1;
            after_digit = false;
        }
    }
    if file == 8 { Some(squares) } else { None }
}

pub(crate) fn read_placement(text: &[u8]) -> Option<[Option<Piece>; 64]>
    ensures { MatchOption result ((b : List Place) → length b ≡ 64 → text.now ≢ placement_text b)
        (λ board. (length board ≡ 64) × (text.now ≡ placement_text board)) }
{
    let mut board = [None; 64];
    let mut rest = text;
    for row in 0..7 {
        let (first, after) = cut_once(rest, b'/')?;
        let squares = read_rank(first)?;
        let start = 56 - 8 * row;
        board[start..start + 8].copy_from_slice(&squares);
        rest = after;
    }
    let squares = read_rank(rest)?;
    board[..8].copy_from_slice(&squares);
    Some(board)
}

pub(crate) fn read_turn(text: &[u8]) -> Option<Colour>
    ensures { MatchOption result ((turn : Colour) → text.now ≢ turn_text turn) (λ turn.
        text.now ≡ turn_text turn) }
{
    match text {
        [b'w'] => Some(Colour::White),
        [b'b'] => Some(Colour::Black),
        _ => None,
    }
}

pub(crate) fn read_rights(text: &[u8]) -> Option<Rights>
    ensures { MatchOption result ((rights : Rights) → text.now ≢ castling_text rights) (λ rights.
        text.now ≡ castling_text rights) }
{
    if let [b'-'] = text {
        return Some(Rights {
            white_short: false,
            white_long: false,
            black_short: false,
            black_long: false,
        });
    }
    let (white_short, rest) = strip(text, b'K');
    let (white_long, rest) = strip(rest, b'Q');
    let (black_short, rest) = strip(rest, b'k');
    let (black_long, rest) = strip(rest, b'q');
    if text.is_empty() || !rest.is_empty() {
        return None;
    }
    Some(Rights {
        white_short,
        white_long,
        black_short,
        black_long,
    })
}

fn strip(text: &[u8], letter: u8) -> (bool, &[u8])
    ensures { MatchBool result.0 (text.now ≡ letter ∷ result.1.now)
        ((result.1.now ≡ text.now) × NotFirst letter text.now) }
{
    match text {
        [first, rest @ ..] if *first == letter => (true, rest),
        _ => (false, text),
    }
}

pub(crate) fn read_en_passant(text: &[u8], turn: Colour) -> Option<Option<Square>>
    ensures { MatchOption result ((ep : Option ℕ) → text.now ≡ en_passant_text ep
        → ¬ IfSome ep (OnEnPassantRank turn))
        (λ ep. (text.now ≡ en_passant_text ep) × IfSome ep (OnEnPassantRank turn)) }
{
    match text {
        [b'-'] => Some(None),
        [file @ b'a'..=b'h', rank] if *rank == b'1' + en_passant_rank(turn) => {
            Some(Square::new(*file - b'a', en_passant_rank(turn)))
        }
        _ => None,
    }
}

pub(crate) fn read_number(text: &[u8]) -> Option<u16>
    ensures { MatchOption result ((n : ℕ) → n < 2 ^ 16 → text.now ≢ decimal n) (λ n.
        (n < 2 ^ 16) × (text.now ≡ decimal n)) }
{
    // `parse` takes a sign and leading zeros too.
    if text.len() > 1 && text[0] < b'1' {
        return None;
    }
    str::from_utf8(text).ok()?.parse().ok()
}

/// The fault of the setup is apart, since those of the clocks come before it.
fn read_four(four: [&[u8]; 4]) -> Result<Result<Setup, SetupError>, FenError>
    ensures { let texts = map (λ t. t.now) four.entry in
        MatchResult result (λ setup. (p : Position) × SpellFour p texts
        × MatchResult setup (λ s. (s ≡ p) × IsSetup p) (λ e. IsFirstFault e p))
        (IsFirstOf (take 4 of_setup) (IsDueFen texts)) }
{
    let [placement, turn, castling, en_passant] = four;
    let board = read_placement(placement).ok_or(FenError::Placement)?;
    let turn = read_turn(turn).ok_or(FenError::Turn)?;
    let rights = read_rights(castling).ok_or(FenError::Castling)?;
    let ep = read_en_passant(en_passant, turn).ok_or(FenError::EnPassantText)?;
    Ok(Setup::build(board, turn, rights, ep))
}

/// Reads the setup that the first four fields of a record spell (PGN Standard 16.1.3.1 to
/// 16.1.3.4).
///
/// # Errors
///
/// The first that is due of `Placement`, `Turn`, `Castling` and `EnPassantText`, and then of
/// `Kings`, `Pawns` and `EnPassantPawn`.
pub fn read_setup(four: [&[u8]; 4]) -> Result<Setup, FenError>
    ensures found { IfOk result (λ s. IsSetup s × (map (λ t. t.now) four.entry ≡ setup_fields s)) }
    ensures only { (p : Position) → IsSetup p → map (λ t. t.now) four.entry ≡ setup_fields p
        → result ≡ Ok p }
    ensures refused { IfErr result (IsFirstOf of_setup (IsDueFen (map (λ t. t.now) four.entry))) }
{
    Ok(read_four(four)??)
}

/// Reads the record that the text spells: six fields with single spaces between (PGN Standard
/// 16.1).
///
/// # Errors
///
/// The first that is due, in the order of `FenError`'s variants.
pub fn read_fen(text: &[u8]) -> Result<Fen, FenError>
    ensures found { IfOk result (λ f. IsRecord f × (text.now ≡ fen_text f)) }
    ensures only { (f : Record) → IsRecord f → text.now ≡ fen_text f → result ≡ Ok f }
    ensures refused { IfErr result (IsFirstOf fen_errors (IsDueFen (fields space text.now))) }
{
    let (placement, turn, castling, ep, half, full) = cut_fields(text).ok_or(FenError::Fields)?;
    let setup = read_four([placement, turn, castling, ep])?;
    let half = read_number(half).ok_or(FenError::Half)?;
    let full = read_number(full).unwrap_or(0);
    if full == 0 {
        return Err(FenError::Full);
    }
    Ok(Fen::with_clocks(setup?, half, full))
}
