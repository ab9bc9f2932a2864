//! FEN records, and the one text of each (PGN Standard 16.1).

ghost use Rattle.std.specs.Prelude.{◌≡◌, ◌<◌, SomeIff};

use crate::setup::Setup;
use crate::text::Text;
use crate::write::{put_number, put_setup};
use std::marker::Model;

/// Holds a FEN record: a setup and the two clocks.
#[derive(Clone, Copy, Debug, PartialEq, Eq, Hash)]
pub struct Fen {
    half: u16,
    full: u16,
    setup: Setup,
}

impl Model for Fen {
    ghost use Rattle.pb_board.specs.Position.{Record, IsRecord, record_of};

    ghost Value = { Record };

    ghost view = { λ f. record_of f.setup f.half f.full };

    ghost invariant = { λ f. IsRecord (record_of f.setup f.half f.full) };

    ghost inverse = { λ r. record { setup = r.setup; half = r.half; full = r.full } };
}

/// Holds the text of a record.
pub type FenBytes = Text<93>;

impl Fen {
    ghost use Rattle.pb_board.specs.Position.{IsRecord, record_of};
    ghost use Rattle.pb_board.specs.Text.{fen_text};

    /// Makes the record of a setup and its clocks.
    pub fn with_clocks(setup: Setup, half: u16, full: u16) -> Fen
        requires { 0 < full }
        ensures { result ≡ record_of setup half full }
    {
        Fen { setup, half, full }
    }

    /// Makes the record of a setup, its half-move clock and its full move number. None exactly
    /// where `full` is 0.
    pub fn new(setup: Setup, half: u16, full: u16) -> Option<Fen>
        ensures { SomeIff result (0 < full) (record_of setup half full) }
    {
        (full > 0).then(|| Fen::with_clocks(setup, half, full))
    }

    /// Gives the setup.
    pub fn setup(&self) -> Setup
        ensures value { result ≡ self.now.setup }
        ensures rules { IsRecord self.now }
    {
        self.setup
    }

    /// Gives the half-move clock: plies since the last capture or pawn's move, 0 to 65,535.
    pub fn half(&self) -> u16
        ensures { result ≡ self.now.half }
    {
        self.half
    }

    /// Gives the full move number, which rises after Black's move, 1 to 65,535.
    pub fn full(&self) -> u16
        ensures { result ≡ self.now.full }
    {
        self.full
    }

    /// Gives the one text of the record, without taking memory.
    pub fn text(&self) -> FenBytes
        ensures { result ≡ fen_text self.now }
    {
        let Fen { half, full, setup } = *self;
        let mut out = Text::new();
        put_setup(&mut out, &setup);
        out.push(b' ');
        put_number(&mut out, half);
        out.push(b' ');
        put_number(&mut out, full);
        out
    }
}
