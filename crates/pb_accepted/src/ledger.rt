//! The ledger.

ghost use Rattle.std.specs.Prelude.{◌≡◌, ◌<◌, ◌≤◌, ◌+◌, ◌*◌, ◌^◌, ◌++◌, ◌∷◌, [], ℕ, All, List};
ghost use Rattle.std.specs.Prelude.{Err, IfOk, IfSome, MatchOption, OnErr, OnOk, Ok, false, length};
ghost use Rattle.std.specs.Prelude.{◌↔◌, IsTrue, nat_lt};
ghost use Rattle.pb_games.specs.Cuts.{IsCut};
ghost use Rattle.pb_games.specs.Submissions.{Submission};
ghost use Rattle.pb_games.specs.declared.refusal.Refusal.TheVariants.{Long};
ghost use Rattle.pb_points.specs.Tally.{held};
ghost use Rattle.pb_points.specs.TallyBook.{AddsSome};
ghost use Rattle.pb_poly.specs.Entry.{IsEntry};
ghost use Rattle.pb_poly.specs.declared.book.Entry.{Entry};
ghost use Rattle.pb_accepted.specs.Accepting.{Step, answer_of, says_new};
ghost use Rattle.pb_accepted.specs.Replying.{IsNewId, IsNumber, most_games};
ghost use Rattle.pb_accepted.specs.Counting.{IsBookOf, count, counted as counted_by, stretch, times};
ghost use Rattle.pb_accepted.specs.Ledger.{IsLedger, KeepsRest, lost as lost_of, new_ledger, rowed};
ghost use Rattle.pb_accepted.specs.Ledger.{with_ply_points};
ghost use Rattle.pb_accepted.specs.Rules.{AreRules, all_plies};

use crate::ply_points::{LostPly, PlyPoints, add_ply_points, lost_times, make_room};
use crate::recorder::Recorder;
use crate::rules::Rules;
use indexmap::IndexMap;
use indexmap::map::Iter;
use pb_games::{Game, Id, LineFields, NoVisitor, Refusal, cut_line, judge_fields, repeats};
use pb_points::Tally;
use pb_poly::{Book, Entry, Table};
use std::alloc::{AllocError, Global};
use std::marker::Model;

/// Bounds the games that a ledger may be made for.
pub const MAX_CAP: u32 = 1_000_000;

/// Answers a submission whose game is held.
#[derive(Clone, Copy, Debug, PartialEq, Eq)]
pub struct Accepted {
    /// The game's number, from 1 in order of acceptance.
    pub number: u32,
    /// Whether the submission brought the game, which wasn't held before.
    pub is_new: bool,
}

/// Holds the accepted games by id, in order of acceptance, with the points of their moves.
#[derive(Drop)]
pub struct Ledger<T: Tally> {
    alloc: Global,
    cap: u32,
    games: IndexMap<Id, Game>,
    tally: T,
    // Where one occurrence is enough for an entry, no book asks for the plies of a side that lost,
    // half of each decided game: so they take few bytes, and are put in no order.
    lost: Vec<LostPly>,
    recorder: Recorder,
    rules: Rules,
}

impl<T: Tally> Model for Ledger<T> {
    ghost use Rattle.pb_accepted.specs.Ledger.{LedgerState, HoldsCounts};

    ghost Value = { LedgerState };

    ghost view = { λ a. record {
      basis = record { randoms = a.recorder.table; rules = a.rules };
      cap = a.cap;
      accepted = a.games.entries;
    } };

    ghost invariant = { λ a. HoldsCounts (T.content a.tally) a.lost.items
        (record {
          basis = record { randoms = a.recorder.table; rules = a.rules };
          cap = a.cap;
          accepted = a.games.entries;
        }) };
}

impl<T: Tally> Ledger<T> {
    /// Makes a ledger without games, for at most `cap` of them, 1 to 1,000,000, of which all plies
    /// count. It keeps a copy of the table.
    pub fn new(alloc: Global, table: &Table, cap: u32) -> Result<Ledger<T>, AllocError>
        requires some { 1 ≤ cap }
        requires few { cap ≤ most_games }
        ensures { IfOk result (λ l. l ≡ new_ledger all_plies table.now cap) }
    {
        Ledger::with_rules(alloc, table, cap, Rules::all_plies())
    }

    /// Makes a ledger as `new` does, that counts by these rules.
    pub fn with_rules(
        alloc: Global,
        table: &Table,
        cap: u32,
        rules: Rules,
    ) -> Result<Ledger<T>, AllocError>
        requires some { 1 ≤ cap }
        requires few { cap ≤ most_games }
        ensures empty { IfOk result (λ l. l ≡ new_ledger rules table.now cap) }
        ensures counting { OnOk result (AreRules rules) }
    {
        // The reader tells that the numbers lie in their ranges.
        let _plies = rules.plies();
        Ok(Ledger {
            alloc,
            cap,
            games: IndexMap::new(alloc),
            tally: T::new(alloc),
            lost: Vec::new(alloc),
            recorder: Recorder::new(alloc, table)?,
            rules,
        })
    }

    /// Takes a line without its LF, and answers the number of the game that it submits, which is
    /// held from now on. Numbers count from 1 in order of acceptance, and a game that comes again
    /// under its id has its number. A line that isn't a new legal game takes no memory.
    ///
    /// # Errors
    ///
    /// What `check_line` refuses; `Conflict` with the number of the other game that is held under
    /// this id; `Full` where the id is new and no more games may be held; `Memory` where the game
    /// is new and there was no memory for it. Nothing has changed then.
    pub fn submit(&mut self, line: &[u8]) -> Result<u32, Refusal>
        ensures step { Step self.old.cap self.old.accepted line.now result self.new.accepted }
        ensures rest { KeepsRest self.old self.new }
    {
        Ok(self.submit_full(Some(line))?.number)
    }

    /// Takes a line as `submit` does, or one of which nothing is known since it is too long, and
    /// answers also whether its game is new.
    pub fn submit_full(&mut self, line: Option<&[u8]>) -> Result<Accepted, Refusal>
        ensures step { MatchOption line.entry ((result ≡ Err Long) × (self.new ≡ self.old))
            (λ bytes. Step self.old.cap self.old.accepted bytes.now (answer_of result)
            self.new.accepted) }
        ensures new { says_new result ≡ nat_lt (length self.old.accepted)
            (length self.new.accepted) }
        ensures rest { KeepsRest self.old self.new }
    {
        let Some(line) = line else {
            return Err(Refusal::Long);
        };
        let fields = cut_line(line)?;
        let id = fields.id();
        // A game that is held is known to be legal, so nothing is played.
        if let Some((index, _, game)) = self.games.get_full(&id) {
            let number = index as u32 + 1;
            if !repeats(&fields, game) {
                judge_fields(fields, &mut NoVisitor)?;
                return Err(Refusal::Conflict(number));
            }
            return Ok(Accepted {
                number,
                is_new: false,
            });
        }
        Ok(Accepted {
            number: self.take(fields, id)?,
            is_new: true,
        })
    }

    fn take(&mut self, fields: LineFields<'_>, id: Id) -> Result<u32, Refusal>
        requires cut { (line : List ℕ) × IsCut line fields }
        requires id { id ≡ fields.id.now }
        requires new { IsNewId fields.id.now self.old.accepted }
        ensures step { (line : List ℕ) → IsCut line fields.entry
            → Step self.old.cap self.old.accepted line result self.new.accepted }
        ensures rest { KeepsRest self.old self.new }
    {
        let read = judge_fields(fields, &mut self.recorder)?;
        if self.games.len() == self.cap as usize {
            return Err(Refusal::Full);
        }
        let Ok(game) = self.recorder.game(self.alloc, &read) else {
            return Err(Refusal::Memory);
        };
        let rules = self.rules;
        match accept(
            &mut self.games,
            &mut self.tally,
            &mut self.lost,
            self.recorder.counted(rules),
            rules.least(),
            id,
            game,
        ) {
            Ok(()) => Ok(self.len()),
            Err(_) => Err(Refusal::Memory),
        }
    }

    /// Tells how many games are held.
    pub fn len(&self) -> u32
        ensures value { result ≡ length self.now.accepted }
        ensures rules { IsLedger self.now }
    {
        self.games.len() as u32
    }

    /// Tells whether no game is held.
    pub fn is_empty(&self) -> bool
        ensures { IsTrue result ↔ (length self.now.accepted ≡ 0) }
    {
        self.games.is_empty()
    }

    /// Iterates over the ids and the games, in order of their numbers.
    pub fn iter(&self) -> Iter<'_, Id, Game>
        ensures { result ≡ self.now.accepted }
    {
        self.games.iter()
    }

    /// Gives the game with this number, 1 to `len()`, and its id.
    pub fn get(&self, number: u32) -> Option<(&Id, &Game)>
        ensures { MatchOption result
            ((s : Submission) → ¬ IsNumber self.now.accepted number s)
            (λ p. IsNumber self.now.accepted number (p.0.now, p.1.now)) }
    {
        self.games.get_index((number as usize).checked_sub(1)?)
    }

    /// Gives the table.
    pub fn table(&self) -> &Table
        ensures { result.now ≡ self.now.basis.randoms }
    {
        self.recorder.table()
    }

    /// Tells what of the games counts.
    pub fn rules(&self) -> Rules
        ensures { result ≡ self.now.basis.rules }
    {
        self.rules
    }

    /// Gives the points of a move under a key, of the plies that count.
    pub fn points(&self, key: u64, code: u16) -> u64
        ensures { result ≡ count (counted_by self.now.basis self.now.accepted) key code }
    {
        self.tally.points(key, code)
    }

    /// Tells how often a move occurs under a key, among the plies that count.
    pub fn times(&self, key: u64, code: u16) -> u64
        ensures { result ≡ times (counted_by self.now.basis self.now.accepted) key code }
    {
        self.tally.times(key, code) + lost_times(&self.lost, key, code)
    }

    /// Adds the stretch of the opening book from the key `first` on to the entries, and answers the
    /// key with which the next one begins. All stretches from the key 0 on are the book. Where
    /// memory is wanting, some entries may have been added.
    pub fn add_stretch(
        &self,
        alloc: Global,
        first: u64,
        entries: &mut Vec<Entry>,
    ) -> Result<Option<u64>, AllocError>
        ensures ok { IfOk result (λ next. (book : List Entry)
            × IsBookOf self.now.basis self.now.accepted book
            × (entries.new.items ≡ entries.old.items ++ stretch first next book)) }
        ensures onward { IfOk result (λ next. IfSome next (λ n. first < n)) }
        ensures err { OnErr result (AddsSome entries.old.items entries.new.items) }
        ensures rules { IsLedger self.now }
    {
        let least = u64::from(self.rules.least());
        self.tally.add_stretch(alloc, least, first, entries)
    }

    /// Makes the opening book of the games that are held.
    pub fn make_book(&self, alloc: Global) -> Result<Book, AllocError>
        ensures book { IfOk result (IsBookOf self.now.basis self.now.accepted) }
        ensures bounds { IfOk result (All IsEntry) }
    {
        let mut entries = Vec::new(alloc);
        let least = u64::from(self.rules.least());
        self.tally.add_book(alloc, least, &mut entries)?;
        Ok(Book::of(entries).unwrap())
    }
}

/// Adds a game. The insert is the last step that may fail, and only then its plies that count are
/// added to the tally and beside it.
fn accept<T: Tally>(
    games: &mut IndexMap<Id, Game>,
    tally: &mut T,
    lost: &mut Vec<LostPly>,
    ply_points: &[PlyPoints],
    least: u32,
    id: Id,
    game: Game,
) -> Result<(), AllocError>
    requires new { IsNewId id games.old.entries }
    requires small { All (λ r. r.points ≤ 2) ply_points.now }
    requires points_fit { (k c : ℕ) → (held (T.content tally.old) k c).points
        + 2 * length ply_points.now ≤ 2 ^ 63 }
    requires times_fit { (k c : ℕ) → (held (T.content tally.old) k c).times
        + length ply_points.now ≤ 2 ^ 63 }
    ensures added { OnOk result (games.new.entries ≡ games.old.entries ++ (id, game) ∷ []) }
    ensures rows { OnOk result ((k c : ℕ) → held (T.content tally.new) k c
        ≡ with_ply_points (rowed least ply_points.now) k c (held (T.content tally.old) k c)) }
    ensures lost { OnOk result (lost.new.items ≡ lost.old.items ++ lost_of least ply_points.now) }
    ensures same_games { OnErr result (games.new.entries ≡ games.old.entries) }
    ensures same_points { OnErr result ((k c : ℕ)
        → held (T.content tally.new) k c ≡ held (T.content tally.old) k c) }
    ensures same_lost { OnErr result (lost.new.items ≡ lost.old.items) }
{
    make_room(tally, lost, ply_points, least)?;
    games.insert(id, game)?;
    add_ply_points(tally, lost, ply_points, least);
    Ok(())
}
