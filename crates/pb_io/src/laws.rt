//! Laws, each the contract of a function that does nothing.

ghost use Rattle.std.specs.Prelude.{◌≡◌, ◌≤◌, ℕ, List, ◌++◌, length, true, IsErr, Result};
ghost use Rattle.std.specs.Bool.{Decides};
ghost use Rattle.std.specs.List.{join_with_byte};
ghost use Rattle.pb_io.specs.Lines.{ended_lines, line_feed, line_limit, line_pieces, lines};
ghost use Rattle.pb_io.specs.Source.{chunk_len, Fill, HandsOut, SourceState};
ghost use Rattle.pb_io.specs.Count.{next_count};
ghost use Rattle.pb_io.specs.declared.fault.Fault.{Fault};
ghost use Rattle.pb_io.specs.declared.fault.ReadFault.{ReadFault};
ghost use Rattle.pb_io.specs.declared.lines.TheConstants.{LINE_LIMIT};
ghost use Rattle.pb_io.specs.declared.source.Failed.{Failed};
ghost use Rattle.pb_io.specs.declared.source.TheConstants.{CHUNK_LEN};

use crate::fault::{Fault, ReadFault};
use crate::source::Failed;

/// The limits are the numbers that the definitions have.
pub fn limits()
    ensures line { LINE_LIMIT ≡ line_limit }
    ensures chunk { CHUNK_LEN ≡ chunk_len }
{}

/// `==` holds exactly where two failures or two faults are one.
pub fn equal_faults()
    ensures failed { (e f : Failed) → Decides (⟦<Failed as PartialEq>⟧.eq e f) (e ≡ f) }
    ensures read { (e f : ReadFault) → Decides (⟦<ReadFault as PartialEq>⟧.eq e f) (e ≡ f) }
    ensures fault { (e f : Fault) → Decides (⟦<Fault as PartialEq>⟧.eq e f) (e ≡ f) }
{}

/// Between two of its states a source has handed out one text.
pub fn handed_is_one()
    ensures { (old new : SourceState) (a b : List ℕ) → HandsOut old new a → HandsOut old new b
        → a ≡ b }
{}

/// A source that handed out a text has answered its end, and one that has failed fails each later
/// fill.
pub fn sources_end()
    ensures ended { (old new : SourceState) (bytes : List ℕ) → HandsOut old new bytes
        → new.ends ≡ next_count old.ends }
    ensures failed { (old new : SourceState) (answer : Result ℕ Failed) (slice : List ℕ)
        → Fill old new answer slice → old.failed ≡ true → IsErr answer }
{}

/// The pieces of a text, joined by LFs, are the text.
pub fn pieces_join()
    ensures { (bytes : List ℕ) → join_with_byte line_feed (line_pieces bytes) ≡ bytes }
{}

/// The lines that an LF ended in a front of a text are the first lines of the text.
pub fn lines_begin()
    ensures { (front bytes : List ℕ) → (later : List (List ℕ))
        × (lines (front ++ bytes) ≡ ended_lines front ++ later) }
{}

/// A text has no more lines than bytes.
pub fn lines_few()
    ensures { (bytes : List ℕ) → length (lines bytes) ≤ length bytes }
{}
