//! Why a position or its text is refused.

ghost use Rattle.std.specs.Prelude.{◌≡◌};

use thiserror::Error;

/// Says why there is no setup, in the order in which the causes are looked for.
#[derive(Clone, Copy, Debug, PartialEq, Eq, Hash, Error)]
pub enum SetupError {
    #[error("it doesn't have one king of each colour")]
    Kings,
    #[error("it has a pawn on rank 1 or 8")]
    Pawns,
    /// The square isn't on rank 6 with White to move or rank 3 with Black to move, isn't empty, or
    /// no enemy pawn stands directly beyond it.
    #[error("no pawn has just passed over its en passant square")]
    EnPassant,
}

/// Says why bytes are no FEN record, in the order in which the causes are looked for.
#[derive(Clone, Copy, Debug, PartialEq, Eq, Hash, Error)]
pub enum FenError {
    #[error("it doesn't have six fields, one space between each two")]
    Fields,
    #[error("its first field isn't eight ranks of pieces and empty squares")]
    Placement,
    #[error("its second field isn't w or b")]
    Turn,
    #[error("its third field isn't - or letters of KQkq in this order")]
    Castling,
    /// The fourth field is neither `-` nor a square of the rank that fits the side to move.
    #[error("its fourth field isn't - or a square that a pawn can have passed over")]
    EnPassantText,
    /// Leading zeros are refused.
    #[error("its fifth field isn't a number from 0 to 65535")]
    Half,
    /// Leading zeros are refused.
    #[error("its sixth field isn't a number from 1 to 65535")]
    Full,
    #[error("it doesn't have one king of each colour")]
    Kings,
    #[error("it has a pawn on rank 1 or 8")]
    Pawns,
    /// The en passant square isn't empty, or no enemy pawn stands directly beyond it.
    #[error("no pawn has just passed over its en passant square")]
    EnPassantPawn,
}

// The rank of the en passant square is judged before.
impl From<SetupError> for FenError {
    ghost use Rattle.pb_board.specs.FourFields.{refusal_of};

    ghost from_gives = { λ e x. x ≡ refusal_of e };

    fn from(error: SetupError) -> FenError {
        match error {
            SetupError::Kings => FenError::Kings,
            SetupError::Pawns => FenError::Pawns,
            SetupError::EnPassant => FenError::EnPassantPawn,
        }
    }
}

impl FenError {
    ghost use Rattle.pb_board.specs.Words.{word_of};

    /// Gives the word that stands for the refusal in the program's lines.
    pub fn word(self) -> &'static str
        ensures { result.now ≡ word_of self }
    {
        match self {
            FenError::Fields => "fields",
            FenError::Placement => "placement",
            FenError::Turn => "turn",
            FenError::Castling => "castling",
            FenError::EnPassantText => "ep-text",
            FenError::Half => "half",
            FenError::Full => "full",
            FenError::Kings => "kings",
            FenError::Pawns => "pawns",
            FenError::EnPassantPawn => "ep-pawn",
        }
    }
}
