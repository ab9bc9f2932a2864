//! Laws of `pbook collect`, of how commands end, and of equality (`==`), as contracts of functions
//! that do nothing.

ghost use Rattle.pb_board.specs.Equality.{IsEquality};
ghost use Rattle.std.specs.Prelude.{◌≡◌, ◌⊎◌, ◌++◌, [], ℕ, Bool, Err, Ok, Some, false, List, true};
ghost use Rattle.std.specs.Prelude.{◌+◌, ◌*◌, ◌<◌, ◌≤◌, IfOk, Result};
ghost use Rattle.pb_io.specs.LineTask.{IfKnown};
ghost use Rattle.pb_io.specs.Source.{HandsOut, SourceState};
ghost use Rattle.pb_accepted.specs.Accepting.{Answer, Step, Run, OneGame};
ghost use Rattle.pb_accepted.specs.Accepting.{reply_line, replies};
ghost use Rattle.pb_commands.specs.Judged.{PutsText, PutsOrEnds, OnlyTextsOf, TextsAreOf};
ghost use Rattle.pb_commands.specs.Judged.{was_taken, SinkState};
ghost use Rattle.pb_commands.specs.CheckShown.{ChecksOrEnds, ChecksShown, CheckShown};
ghost use Rattle.pb_commands.specs.Runs.{Change, EndStates, IsSame, JournalStates, MakesBook};
ghost use Rattle.pb_commands.specs.Runs.{CollectRun, ContinueRun, JournalRun, MakesContinued};
ghost use Rattle.pb_commands.specs.Runs.{most_games, LedgerState, new_ledger, CountingRules};
ghost use Rattle.pb_commands.specs.Runs.{across};
ghost use Rattle.pb_commands.specs.Into.{Into, KeepsBook, KeepsBoth, book_bytes, Saved};
ghost use Rattle.pb_commands.specs.Store.{StoreState};
ghost use Rattle.pb_commands.specs.Sentence.{Sentence};
ghost use Rattle.pb_commands.specs.ContinueHeadline.{HasHeadlineOfBoth};
ghost use Rattle.pb_commands.specs.Headline.{Effect, HasHeadline, Headline, lines, Submission};
ghost use Rattle.pb_commands.specs.Headline.{Basis};
ghost use Rattle.pb_poly.specs.Reading.{AsBook, ReadsBook, Tells};
ghost use Rattle.pb_poly.specs.TableReading.{AsTable, ReadsTable};
ghost use Rattle.pb_commands.specs.BookShown.{BookShown};
ghost use Rattle.pb_commands.specs.EpdShown.{RewritesOrEnds, LineShown};
ghost use Rattle.pb_commands.specs.ExportRun.{BlamesSink, ExportRun};
ghost use Rattle.pb_commands.specs.FenShown.{FenShown};
ghost use Rattle.pb_commands.specs.LinesRun.{LinesShown};
ghost use Rattle.pb_commands.specs.LookupShown.{LooksUp, LookupShown};
ghost use Rattle.pb_commands.specs.ProbeShown.{ProbeShown, ProbesSources};
ghost use Rattle.pb_commands.specs.Tree.{share};

use crate::continuing::Continued;
use crate::run::{Intake, Report};
use crate::stop::{Refused, Stop, Stopped};
use crate::store::StoreError;
use pb_io::Fault;
use pb_ledger::Refusal;
pub use pb_ledger::laws::one_game;
use pb_poly::{Entry, TableFault};

/// Where no id names two different games, the book's bytes are those of the distinct legal
/// submissions that were accepted, each counted once, whatever their order and however often they
/// come; every legal arrival is accepted unless room or memory is refused; a repeat is answered as
/// its first acceptance was; and a refused submission changes nothing.
pub fn sentence()
    ensures { (T : Basis) (L R : List (List ℕ)) (games : List Submission) (entries : List Entry)
        (book : List ℕ) → OneGame L → Effect T L R games entries book
        → Sentence T L R entries book }
{}

/// Where a book was kept, just the bytes of its entries were handed to what has the store's name.
pub fn kept()
    ensures { (store : Change StoreState) (taken : Intake) (report : Report)
        → KeepsBook store taken (Ok report) → (entries : List Entry) × MakesBook taken (Ok entries)
        × (store.new.handed ≡ Some (book_bytes entries)) }
{}

/// The store of a book is left alone where an input was refused, where a fault ended the taking,
/// and where the ledger was not kept.
pub fn spared()
    ensures refused { (rules : CountingRules) (fills : ℕ) (e : EndStates)
        (store : Change StoreState) (why : Refused)
        → Into (CollectRun rules fills e) (KeepsBook store) (IsSame store) (Err (Stop.Refused why))
        → IsSame store }
    ensures fault { (store : Change StoreState) (taken : Intake) (fault : Fault)
        (result : Result Report Stop) → taken.end ≡ Err fault → KeepsBook store taken result
        → IsSame store }
    ensures ledger { (ledger book : Change StoreState) (taken : Intake) (why : StoreError)
        (result : Result Report Stop) → ledger.new.fault ≡ Some why
        → KeepsBoth ledger book taken result → IsSame book }
{}

/// What a run rests on that stopped at its table, or went on from a saved ledger.
pub fn rests_on()
    ensures table { (rules : CountingRules) (fills : ℕ) (e : EndStates) (why : Stopped)
        → CollectRun rules fills e (Err why)
        → (cause : TableFault) × across (ReadsTable fills) e.table (Err cause) }
    ensures saved { (rules : CountingRules) (e : EndStates) (source : Change SourceState)
        (left : LedgerState) (entries : List Entry) (book : List ℕ)
        (h : HasHeadlineOfBoth rules e source left entries book) → across HandsOut source h.saved
        × (left ≡ record (new_ledger rules h.goes_on.randoms most_games) {
          accepted = left.accepted;
        }) }
    ensures ledger { (taken : Intake) (made : Continued) → MakesContinued taken (Ok made)
        → made.ledger ≡ taken.ledger }
{}

/// Over bytes in memory the theorem is of just these bytes.
pub fn in_memory()
    ensures { (rules : CountingRules) (e : EndStates) (file bytes put : List ℕ)
        (entries : List Entry) (book : List ℕ) → e.table.old.to_come ≡ Some file
        → e.lines.old.to_come ≡ Some bytes → e.replies.old.bytes ≡ Some []
        → e.replies.new.bytes ≡ Some put → HasHeadline rules e entries book
        → Headline rules file bytes put entries book }
{}

/// What an earlier run saved is what a run holds that goes on from it: both are one long run.
pub fn goes_on()
    ensures { (rules : CountingRules) (e : EndStates) (source : Change SourceState)
        (left : LedgerState) (entries : List Entry) (book : List ℕ)
        (h : HasHeadlineOfBoth rules e source left entries book) (K : List (List ℕ))
        (Q : List Answer) (A : List Submission) → Run most_games [] K Q A → Saved A h.saved
        → (h.held ≡ A) × (replies (K ++ lines h.goes_on.at.line_bytes) (Q ++ h.goes_on.answers)
        ≡ replies K Q ++ h.goes_on.at.reply_bytes) }
{}

/// A run whose table or saved ledger is refused reads no submission, and leaves a journal alone.
pub fn unread()
    ensures collect { (rules : CountingRules) (fills : ℕ) (e : EndStates) (why : Refused)
        → CollectRun rules fills e (Err (Stopped.Refused why)) → IsSame e.lines }
    ensures continued { (rules : CountingRules) (fills : ℕ) (e : EndStates)
        (saved : Change SourceState) (why : Refused)
        → ContinueRun rules fills e saved (Err (Stopped.Refused why)) → IsSame e.lines }
    ensures journaled { (rules : CountingRules) (fills : ℕ) (e : EndStates) (j : JournalStates)
        (why : Refused) → JournalRun rules fills e j (Err (Stopped.Refused why))
        → IsSame e.lines × IsSame j.kept × IsSame j.journal }
{}

/// Where the bytes of `run_check` are known, what was put is what their lines give. No line wants
/// memory.
pub fn check_ends()
    ensures told { (fills : ℕ) (s s' : SourceState) (k k' : SinkState) (answer : Bool)
        → ChecksOrEnds fills s s' k k' (Ok answer)
        → IfKnown s s' (λ ls. PutsText (ChecksShown ls) k k' answer) }
    ensures memory { (fills : ℕ) (s s' : SourceState) (k k' : SinkState)
        → ChecksOrEnds fills s s' k k' (Err Fault.Memory) → (s' ≡ s) × (k' ≡ k) }
{}

/// A line that `run_check` refuses every ledger refuses with the same reply. One that is `ok` it
/// refuses at most as a conflict, or for want of room or memory.
pub fn check_agrees()
    ensures refused { (line out : List ℕ) → CheckShown line (Ok (false, out))
        → (cap : ℕ) (A : List Submission) (r : Answer) (B : List Submission) → Step cap A line r B
        → (out ≡ reply_line line r) × (B ≡ A) }
    ensures taken { (line out : List ℕ) → CheckShown line (Ok (true, out))
        → (cap : ℕ) (A : List Submission) (e : Refusal) (B : List Submission)
        → Step cap A line (Err e) B
        → (e ≡ Refusal.Full) ⊎ (e ≡ Refusal.Memory) ⊎ ((n : ℕ) × (e ≡ Refusal.Conflict n)) }
{}

/// No fault ends `run_fen` but one of the sink.
pub fn fen_ends()
    ensures { (fen : List ℕ) (words : List (List ℕ)) (k k' : SinkState) (fault : Fault)
        → PutsOrEnds (FenShown fen words) k k' (Err fault) → fault ≡ Fault.Write }
{}

/// Where the bytes of `run_epd` are known, what was put is what their lines give.
pub fn epd_ends()
    ensures { (fills : ℕ) (s s' : SourceState) (k k' : SinkState) (answer : Bool)
        → RewritesOrEnds fills s s' k k' (Ok answer)
        → IfKnown s s' (λ ls. PutsText (LinesShown LineShown 1 ls) k k' answer) }
{}

/// Where a failed write stopped `export`, its sink has failed, and where that has failed since it
/// began, nothing else stopped it.
pub fn blamed()
    ensures { (rules : CountingRules) (fills : ℕ) (table lines : Change SourceState)
        (sink : Change SinkState) (why : Stopped) → ExportRun rules fills table lines sink (Err why)
        → BlamesSink sink why }
{}

/// Reports are equal exactly where they are one, and so are reasons why a text isn't kept, and why
/// a command or a run stopped.
pub fn equal_values()
    ensures reports { IsEquality ⟦<Report as PartialEq>⟧.eq }
    ensures text { IsEquality ⟦<StoreError as PartialEq>⟧.eq }
    ensures stop { IsEquality ⟦<Stop as PartialEq>⟧.eq }
    ensures stopped { IsEquality ⟦<Stopped as PartialEq>⟧.eq }
{}

/// What `run_show` puts, where its bytes are known, is what they show; only want of memory comes in
/// place of that where the source also doesn't fail and ends within the fills.
pub fn show_ends()
    ensures told { (fills : ℕ) (s s' : SourceState) (bytes : List ℕ) → s.to_come ≡ Some bytes
        → TextsAreOf (BookShown (ReadsBook fills s s')) (BookShown (AsBook bytes)) }
    ensures only { (fills : ℕ) (s s' : SourceState) (bytes : List ℕ) → Tells fills s s' bytes
        → OnlyTextsOf (BookShown (ReadsBook fills s s')) (BookShown (AsBook bytes)) }
{}

/// The same of `run_probe` and its two sources.
pub fn probe_ends()
    ensures told { (fills : ℕ) (t t' b b' : SourceState) (fen table book : List ℕ)
        → t.to_come ≡ Some table → b.to_come ≡ Some book
        → TextsAreOf (ProbesSources fills t t' b b' fen)
        (ProbeShown (AsTable table) (AsBook book) fen) }
    ensures only { (fills : ℕ) (t t' b b' : SourceState) (fen table book : List ℕ)
        → Tells fills t t' table → Tells fills b b' book
        → OnlyTextsOf (ProbesSources fills t t' b b' fen)
        (ProbeShown (AsTable table) (AsBook book) fen) }
{}

/// What `answer_lookup` puts, where the bytes of its three sources are known, is what these give.
pub fn lookup_ends()
    ensures { (fills : ℕ) (t t' b b' s s' : SourceState) (k k' : SinkState)
        (result : Result Bool Stopped) (table book bytes : List ℕ) → t.to_come ≡ Some table
        → b.to_come ≡ Some book → s.to_come ≡ Some bytes → LooksUp fills t t' b b' s s' k k' result
        → IfOk (was_taken result)
        (PutsText (LookupShown (AsTable table) (AsBook book) (lines bytes)) k k') }
{}

/// A share is in per cent and rounded down. Where all weights are 0 it is 0.
pub fn shares()
    ensures down { (sum weight : ℕ) → 0 < sum → (share sum weight * sum ≤ 100 * weight)
        × (100 * weight < (share sum weight + 1) * sum) }
    ensures none { (weight : ℕ) → share 0 weight ≡ 0 }
{}
