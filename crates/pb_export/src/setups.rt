//! The setups that stand before the moves of games and for which a book has moves.

ghost use Rattle.std.specs.Prelude.{◌≡◌, ◌≤◌, ◌<◌, ◌^◌, ◌==◌, ◌++◌, ◌∷◌, [], ℕ, All, Contains};
ghost use Rattle.std.specs.Prelude.{IfOk, IsTrue, filter, List, OnOk, length, map};
ghost use Rattle.pb_board.specs.Text.{setup_text};
ghost use Rattle.pb_games.specs.Submissions.{IsLegalGame};
ghost use Rattle.pb_moves.specs.Moved.{Moved};
ghost use Rattle.pb_poly.specs.Found.{Found};
ghost use Rattle.pb_poly.specs.declared.book.Entry.{Entry as BookEntry};
ghost use Rattle.pb_poly.specs.Key.{key as key_by};
ghost use Rattle.pb_export.specs.Setups.{AddsSetups, HasMoves, InFieldOrder, ListsSetups};
ghost use Rattle.pb_export.specs.Setups.{all_setups, moves_of, setups_before};
ghost use Rattle.pb_export.specs.declared.setups.ListedSetup.{ListedSetup};

use crate::indexed_book::IndexedBook;
use pb_accepted::Ledger;
use pb_board::{Fen, Setup, Text};
use pb_games::Game;
use pb_moves::{Move, effect_of};
use pb_points::Tally;
use pb_poly::{Entry, Table, key_next, key_of, move_of};
use std::alloc::{AllocError, Global};

/// How many recent setups are noted.
const RECENT: usize = 16_384;

/// The four fields of a setup: the text of a record without its clocks, which take four bytes at
/// least.
type SetupText = Text<89>;

/// A setup, and where its moves stand among those of all.
#[derive(Clone, Copy)]
pub(crate) struct ListedSetup {
    pub(crate) fields: SetupText,
    first: usize,
    end: usize,
}

#[derive(Drop)]
struct KeyedSetups {
    keys: Vec<u64>,
    setups: Vec<Setup>,
}

/// The setups for which a book has moves, and these moves with their weights.
#[derive(Drop)]
pub(crate) struct Listing {
    pub(crate) setups: Vec<ListedSetup>,
    moves: Vec<(Move, u16)>,
    // The higher half of the last key of each remainder, and the index of its setup. Any others
    // would do no harm.
    recent: Vec<(u32, u32)>,
}

impl Listing {
    /// The setups before the moves of the games held, each once, in the byte order of their texts.
    pub(crate) fn of<T: Tally>(
        alloc: Global,
        ledger: &Ledger<T>,
        book: &IndexedBook,
    ) -> Result<Listing, AllocError>
        ensures setups { IfOk result (λ l. ListsSetups ledger.now.basis.randoms book.now
            (all_setups ledger.now.accepted) l.moves.items l.setups.items) }
        ensures ordered { IfOk result (λ l. InFieldOrder l.setups.items) }
        ensures few { IfOk result (λ l. length l.setups.items < 2 ^ 32) }
    {
        let mut listing = Listing {
            setups: Vec::new(alloc),
            moves: Vec::new(alloc),
            recent: vec![in alloc; (0, 0); RECENT]?,
        };
        for index in 0..ledger.len() {
            let (_, game) = ledger.get(index + 1).unwrap();
            listing.add_game(alloc, book, ledger.table(), game)?;
        }
        put_in_order(&mut listing.setups);
        Ok(listing)
    }

    pub(crate) fn moves_of(&self, listed: &ListedSetup) -> &[(Move, u16)]
        requires { HasMoves self.now.moves.items listed.now }
        ensures { result.now ≡ moves_of self.now.moves.items listed.now }
    {
        &self.moves[listed.first..listed.end]
    }

    fn add_game(
        &mut self,
        alloc: Global,
        book: &IndexedBook,
        table: &Table,
        game: &Game,
    ) -> Result<(), AllocError>
        requires { IsLegalGame game.now }
        ensures { OnOk result
            (AddsSetups table.now book.now (setups_before game.now) self.old self.new) }
    {
        let KeyedSetups { keys, setups } = keyed_setups(alloc, table, game)?;
        let firsts = book.firsts_under(alloc, &keys)?;
        for index in 0..setups.len() {
            let key = keys[index];
            self.add_setup(book.under(firsts[index], key), &setups[index], key)?;
        }
        Ok(())
    }

    /// Adds the setup of a key, where one of the entries of the key is for it.
    fn add_setup(&mut self, entries: &[Entry], setup: &Setup, key: u64) -> Result<(), AllocError>
        ensures { OnOk result ((words : List ℕ) (book : List BookEntry)
            → key ≡ key_by words setup.now → entries.now ≡ filter (λ e. e.key == key) book
            → AddsSetups words book (setup.now ∷ []) self.old self.new) }
    {
        // The reader tells that the setup meets its rules.
        let _turn = setup.turn();
        if entries.is_empty() {
            return Ok(());
        }
        let fields = fields_of(setup);
        if self.is_recent(key, fields.as_bytes()) {
            return Ok(());
        }
        self.note_recent(key);
        let first = self.moves.len();
        add_moves(&mut self.moves, entries, setup)?;
        let end = self.moves.len();
        if first < end {
            self.setups.push(ListedSetup { fields, first, end })?;
        }
        Ok(())
    }

    /// Notes the setup that is listed next as that of this key.
    fn note_recent(&mut self, key: u64)
        ensures setups { self.new.setups.items ≡ self.old.setups.items }
        ensures moves { self.new.moves.items ≡ self.old.moves.items }
    {
        let index = u32::try_from(self.setups.len()).unwrap_or(u32::MAX);
        if let Some(recent) = self.recent.get_mut((key % RECENT as u64) as usize) {
            *recent = ((key >> 32) as u32, index);
        }
    }

    /// Whether this setup is the last noted of its key, so that one that many games meet is mostly
    /// listed once.
    fn is_recent(&self, key: u64, fields: &[u8]) -> bool
        ensures { IsTrue result → (x : ListedSetup) × Contains self.now.setups.items x
            × (x.fields ≡ fields.now) }
    {
        let Some((noted, index)) = self.recent.get((key % RECENT as u64) as usize) else {
            return false;
        };
        if u64::from(*noted) != key >> 32 {
            return false;
        }
        let listed = self.setups.get(*index as usize);
        listed.is_some_and(|listed| listed.fields.as_bytes() == fields)
    }
}

fn fields_of(setup: &Setup) -> SetupText
    ensures { result ≡ setup_text setup.now }
{
    // In the record they stand in front of ` 0 1`.
    let record = Fen::with_clocks(*setup, 0, 1).text();
    let bytes = record.as_bytes();
    Text::of(&bytes[..bytes.len() - 4])
}

fn keyed_setups(alloc: Global, table: &Table, game: &Game) -> Result<KeyedSetups, AllocError>
    requires { IsLegalGame game.now }
    ensures setups { IfOk result (λ k. k.setups.items ≡ setups_before game.now) }
    ensures keys { IfOk result (λ k. k.keys.items
        ≡ map (key_by table.now) (setups_before game.now)) }
{
    let moves = game.moves.as_slice();
    let mut keys = Vec::with_capacity(alloc, moves.len())?;
    let mut setups = Vec::with_capacity(alloc, moves.len())?;
    let mut setup = game.start.setup();
    let mut key = key_of(table, &setup);
    for m in moves {
        keys.push(key)?;
        setups.push(setup)?;
        match effect_of(&setup, *m) {
            Some(effect) => {
                key = key_next(table, key, &setup, *m, &effect);
                effect.apply(&mut setup);
            }
            // The moves of a game that is held are legal.
            None => unreachable!(),
        }
    }
    Ok(KeyedSetups { keys, setups })
}

/// Adds the moves of the entries.
fn add_moves(
    moves: &mut Vec<(Move, u16)>,
    entries: &[Entry],
    setup: &Setup,
) -> Result<(), AllocError>
    ensures { OnOk result ((words : List ℕ) → All (λ e. e.key ≡ key_by words setup.now) entries.now
        → (found : List (Moved × ℕ)) × Found entries.now words setup.now found
        × (moves.new.items ≡ moves.old.items ++ found)) }
{
    for entry in entries {
        if let Some(m) = move_of(setup, entry.code) {
            moves.push((m, entry.weight))?;
        }
    }
    Ok(())
}

fn put_in_order(setups: &mut Vec<ListedSetup>)
    ensures ordered { InFieldOrder setups.new.items }
    ensures sound { (x : ListedSetup) → Contains setups.new.items x → Contains setups.old.items x }
    ensures whole { (x : ListedSetup) → Contains setups.old.items x
        → (y : ListedSetup) × Contains setups.new.items y × (y.fields ≡ x.fields) }
    ensures few { length setups.new.items ≤ length setups.old.items }
{
    setups.sort_unstable_by(|one, other| one.fields.as_bytes().cmp(other.fields.as_bytes()));
    setups.dedup_by(|next, one| next.fields.as_bytes() == one.fields.as_bytes());
}
