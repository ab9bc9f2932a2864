//! Laws of ledgers, of their exports and saved forms, of journals and of the lines of games, and of
//! equality (`==`), as contracts of functions that do nothing.

ghost use Rattle.pb_board.specs.Equality.{IsEquality};
ghost use Rattle.std.specs.Prelude.{◌≡◌, ◌≢◌, ◌++◌, ◌≤◌, ◌⊎◌, ◌∷◌, ◌↔◌, [], ℕ, List, All, take};
ghost use Rattle.std.specs.Prelude.{length};
ghost use Rattle.pb_board.specs.LineEnd.{with_end};
ghost use Rattle.pb_io.specs.Lines.{line_feed, lines};
ghost use Rattle.pb_io.specs.LineTask.{AtEnd, AtFault, AtNoEnd};
ghost use Rattle.pb_io.specs.Sink.{AwaitsFlush, HandedOnOnce, SinkState};
ghost use Rattle.pb_io.specs.Source.{SourceState};
ghost use Rattle.pb_io.specs.declared.fault.Fault.TheVariants as fault;
ghost use Rattle.pb_ledger.specs.Collecting.{CollectsStream, CollectsUntil};
ghost use Rattle.pb_ledger.specs.Change.{Change, IsSame, across, Makes};
ghost use Rattle.pb_poly.specs.Book.{BookBytes};
ghost use Rattle.pb_poly.specs.Reading.{Tells};
ghost use Rattle.pb_poly.specs.declared.book.Entry.{Entry};
ghost use Rattle.pb_games.specs.Submissions.{Submission, IsSubmission, submission_text};
ghost use Rattle.pb_accepted.specs.Rules.{Basis};
ghost use Rattle.pb_accepted.specs.Counting.{IsBook, counted};
ghost use Rattle.pb_accepted.specs.Ledger.{LedgerState};
ghost use Rattle.pb_accepted.specs.Replying.{HaveOwnIds};
ghost use Rattle.pb_accepted.specs.Accepting.{SameMembers, Answer, OneGame, Run, Taken};
ghost use Rattle.pb_accepted.specs.Accepting.{replies as replies_to};
ghost use Rattle.pb_export.specs.Exporting.{ExportText};
ghost use Rattle.pb_ledger.specs.declared.saving.LoadError.{LoadError};
ghost use Rattle.pb_ledger.specs.Journal.{games_text, Journals, GameLines, mending};
ghost use Rattle.pb_ledger.specs.Saving.{Saved, Loads, LoadsUntil};
ghost use Rattle.pb_ledger.specs.declared.saving.LoadError.TheVariants.{Endless, Memory, Read};

use crate::collecting::Totals;
use crate::saving::LoadError;
pub use pb_accepted::laws::{
    books, distinct, numbers, one_game, one_line, premises, replies, runs, worked,
};
pub use pb_export::laws::exports;
pub use pb_games::laws::{one_refusal, one_submission, refused_by_itself, refused_is_unlawful};

/// Where no id names two games, runs that took the same submissions have one book and one export,
/// in whatever order these came.
pub fn same_submissions()
    ensures { (T : Basis) (m n : ℕ) (K L : List (List ℕ)) (Q R : List Answer)
        (A B S U : List Submission) → OneGame K → OneGame L → Run m [] K Q A → Run n [] L R B
        → Taken [] K Q S → Taken [] L R U → SameMembers S U
        → ((least : ℕ) (E F : List Entry) (a b : List ℕ) → IsBook (counted T A) least E
        → IsBook (counted T B) least F → BookBytes E a → BookBytes F b → a ≡ b)
        × ((a b : List ℕ) → ExportText T A a → ExportText T B b → a ≡ b) }
{}

/// How a stream of submissions ends: its replies are handed on once; at a fault of reading they
/// wait; and where memory was wanting no line was taken.
pub fn collected()
    ensures handed_on { (fills : ℕ) (source : Change SourceState) (sink : Change SinkState)
        (ledger : Change LedgerState) (totals : Totals)
        → CollectsStream fills source sink ledger totals → across HandedOnOnce sink }
    ensures read { (fills : ℕ) (source : Change SourceState) (sink : Change SinkState)
        (ledger : Change LedgerState) → CollectsUntil fills source sink ledger fault.Read
        → across AwaitsFlush sink }
    ensures memory { (fills : ℕ) (source : Change SourceState) (sink : Change SinkState)
        (ledger : Change LedgerState) → CollectsUntil fills source sink ledger fault.Memory
        → IsSame source × IsSame sink × IsSame ledger }
{}

/// Where a saved ledger can't be read to its end, the games of the lines that an LF ended are held.
pub fn loaded()
    ensures read { (fills : ℕ) (source : Change SourceState) (ledger : Change LedgerState)
        → LoadsUntil fills source ledger Read → across (AtFault fills) source (Makes Loads ledger) }
    ensures endless { (fills : ℕ) (source : Change SourceState) (ledger : Change LedgerState)
        → LoadsUntil fills source ledger Endless
        → across (AtNoEnd fills) source (Makes Loads ledger) }
{}

/// What is saved of games loads as these games and as no others, where there is room. So `load`
/// gives them back where it can read all of it and memory is there, and refuses no line of it.
pub fn saved()
    ensures loads { (cap : ℕ) (A B : List Submission) (bytes : List ℕ) → All IsSubmission A
        → HaveOwnIds A → length A ≤ cap → Saved A bytes → (Loads cap (lines bytes) B ↔ (B ≡ A)) }
    ensures back { (fills : ℕ) (source : Change SourceState) (ledger : Change LedgerState)
        (A : List Submission) (bytes : List ℕ) → All IsSubmission A → HaveOwnIds A
        → length A ≤ ledger.old.cap → Saved A bytes → across (Tells fills) source bytes
        → (across (AtEnd fills) source (Makes Loads ledger) → ledger.new.accepted ≡ A)
        × ((e : LoadError) → LoadsUntil fills source ledger e → e ≡ Memory) }
{}

/// A run, what it holds saved and loaded, and a further run from there are one long run.
pub fn continued()
    ensures { (cap : ℕ) (K L : List (List ℕ)) (Q R : List Answer) (A B C : List Submission)
        (bytes : List ℕ) → Run cap [] K Q A → Saved A bytes → Loads cap (lines bytes) B
        → Run cap B L R C → Run cap [] (K ++ L) (Q ++ R) C
        × (replies_to (K ++ L) (Q ++ R) ≡ replies_to K Q ++ replies_to L R) }
{}

/// A journal's bytes hold one list of games, which come first whatever follows and which mending
/// leaves; it gains the lines of new games; and the game of a torn line is there as a whole or not
/// at all.
pub fn journaled()
    ensures one { (cap : ℕ) (bytes : List ℕ) (A B : List Submission) → Journals cap bytes A
        → Journals cap bytes B → A ≡ B }
    ensures goes_on { (cap : ℕ) (front behind : List ℕ) (A B : List Submission)
        → Journals cap front A → Journals cap (front ++ behind) B
        → (later : List Submission) × (B ≡ A ++ later) }
    ensures mends { (cap : ℕ) (bytes : List ℕ) (A : List Submission) (n : ℕ) → Journals cap bytes A
        → Journals cap (bytes ++ take n (mending bytes)) A }
    ensures grows { (cap : ℕ) (bytes text : List ℕ) (A G : List Submission) → Journals cap bytes A
        → All IsSubmission G → HaveOwnIds (A ++ G) → length (A ++ G) ≤ cap → GameLines G text
        → Journals cap (bytes ++ mending bytes ++ text) (A ++ G) }
    ensures tears { (cap : ℕ) (bytes text : List ℕ) (A G : List Submission) (g : Submission) (n : ℕ)
        → Journals cap bytes A → All IsSubmission (G ++ g ∷ []) → HaveOwnIds (A ++ G ++ g ∷ [])
        → length (A ++ G ++ g ∷ []) ≤ cap → GameLines G text
        → let front = bytes ++ mending bytes ++ text ++ take n (with_end (submission_text g)) in
        Journals cap front (A ++ G) ⊎ Journals cap front (A ++ G ++ g ∷ []) }
{}

/// The lines that are picked from a journal hold what it holds; of a saved ledger and of lines of
/// games they are those of its games. Neither a torn line nor what seals it adds one.
pub fn picked()
    ensures held { (cap : ℕ) (bytes : List ℕ) (A : List Submission) → Journals cap bytes A
        → Journals cap (games_text bytes) A }
    ensures saved { (A : List Submission) (bytes : List ℕ) → All IsSubmission A → Saved A bytes
        → GameLines A (games_text bytes) }
    ensures lines { (A : List Submission) (bytes : List ℕ) → All IsSubmission A → GameLines A bytes
        → games_text bytes ≡ bytes }
    ensures torn { (bytes torn : List ℕ) → All (λ b. b ≢ line_feed) torn
        → games_text (bytes ++ torn) ≡ games_text bytes }
    ensures mended { (bytes : List ℕ) → games_text (bytes ++ mending bytes) ≡ games_text bytes }
{}

/// Totals and errors of loading are equal exactly where they are one value.
pub fn equal_values()
    ensures totals { IsEquality ⟦<Totals as PartialEq>⟧.eq }
    ensures load { IsEquality ⟦<LoadError as PartialEq>⟧.eq }
{}
