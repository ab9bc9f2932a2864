//! The surface of the six crates, as another program meets it: each call and each type that is
//! promised, once, with its argument and result types. It compiles only while these stand, small
//! types are `Copy`, enums have just these members, and answers and errors have `==`. Integers have
//! types, since a bare literal would follow a changed width.
//!
//! What the calls answer is said by their contracts. Here they are compared with what is due under
//! a table of ones, by which the start has key 1, and of one game of three plies.

pub use pb_board::laws as board_laws;
use pb_board::{
    Colour, Fen, FenBytes, FenError, Kind, Piece, Rights, Setup, SetupError, Square, read_fen,
    read_setup, write_fen, write_setup,
};
use pb_cli::{
    Continued, Fault, Order, ParseFault, parse, run_collect, run_continue, run_epd, run_export,
    run_fen, run_probe, run_show, status,
};
pub use pb_epd::laws as epd_laws;
use pb_epd::{Epd, EpdError, Operand, OperandBytes, PutError, read_epd, write_epd};
pub use pb_ledger::laws as ledger_laws;
use pb_ledger::{
    CollectFault, ExportFault, Game, Id, Ledger, Line, ListTally, LoadError, MapTally, MoveList,
    Outcome, Plies, Refusal, Row, Rules, Tally, Totals, check_line, collect, export, load, save,
    scale,
};
use pb_moves::{
    Move, MoveText, advance, attacked, in_check, is_legal, legal_moves, play, playable, read_move,
};
pub use pb_poly::laws as poly_laws;
use pb_poly::{
    Book, BookError, Entry, Failed, FromRead, FuseSink, FuseSource, MemSink, MemSource,
    NeverSource, Sink, Source, Table, TableError, ToWrite, code_of, key_after, key_of, move_of,
    probe, read_book, read_table, write_book, write_entry,
};
use std::alloc::{AllocError, Global};
use std::error::Error;
use std::hash::Hash;
use std::io::Cursor;

const START: &str = "rnbqkbnr/pppppppp/8/8/8/8/PPPPPPPP/RNBQKBNR w KQkq - 0 1";

const LINE: &[u8] =
    b"g1\t1-0\trnbqkbnr/pppppppp/8/8/8/8/PPPPPPPP/RNBQKBNR w KQkq - 0 1\te2e4 e7e5 g1f3";

/// Asks each type of a list for a trait.
macro_rules! each {
    ($is:ident: $($name:ty),*) => { $($is::<$name>();)* };
}

/// Names the type of what a member holds.
macro_rules! payloads {
    ($($name:ident::$member:ident: $ty:ty),*) => {
        $(let _ = |value: $ty| $name::$member(value);)*
    };
}

/// Names the members of an enum, those that hold something last: it doesn't compile with one more or
/// one less.
macro_rules! members {
    ($name:ident: $($unit:ident)*; $($held:ident)*) => {
        let _ = |value: $name| match value {
            $($name::$unit => true,)*
            $($name::$held { .. } => true),*
        };
    };
}

fn is_copy<T: Copy>() {}

fn is_compared<T: Eq>() {}

fn is_hashed<T: Hash>() {}

fn is_ordered<T: Ord>() {}

fn is_error<T: Error>() {}

/// Asks the types for what callers do with their values.
fn traits() {
    each!(is_copy: Square, Colour, Kind, Piece, Rights, Setup, Fen, FenBytes);
    each!(is_copy: Move, MoveText, Entry, Outcome, Id, Row, Rules);
    each!(is_compared: Square, Colour, Kind, Piece, Rights, Setup, Fen, FenBytes);
    each!(is_compared: Move, MoveText, Entry, Outcome, Id, Row, Rules, Totals);
    each!(is_compared: FenError, SetupError, EpdError, PutError, TableError, BookError);
    each!(is_compared: Failed, Refusal, CollectFault, ExportFault, LoadError, Fault);
    each!(is_hashed: Square, Colour, Kind, Piece, Rights, Setup, Fen, FenBytes);
    each!(is_hashed: Move, MoveText, Outcome, Id);
    each!(is_hashed: FenError, SetupError, EpdError, PutError, Refusal);
    each!(is_ordered: Square, Colour, Kind, Piece);
    each!(is_error: FenError, SetupError, EpdError, PutError, TableError, BookError);
    each!(is_error: Failed, Refusal, CollectFault, ExportFault, LoadError, Fault, ParseFault);
}

/// Names the members of the types that have some.
fn members() {
    members!(Colour: White Black;);
    members!(Kind: Pawn Knight Bishop Rook Queen King;);
    members!(SetupError: Kings Pawns EnPassant;);
    members!(FenError: Fields Placement Turn Castling EnPassantText Half Full
        Kings Pawns EnPassantPawn;);
    members!(Operand:; Word Text);
    members!(PutError: Opcode Repeated Memory; Operand);
    members!(EpdError: Fields Unended Memory; Token Setup Opcode Repeated);
    members!(TableError: Memory; Line Count);
    members!(BookError: Read Endless Memory; Unsorted Cut);
    members!(Outcome: White Black Draw;);
    members!(Refusal: Long Shape Id Result Start Plies Full Memory; Fen Spelling Illegal Conflict);
    members!(CollectFault: Read Write Endless Memory;);
    members!(ExportFault: Write Memory;);
    members!(LoadError: Read Endless Memory; Line);
    members!(Fault: Read Write Endless Memory;);
    members!(ParseFault: Memory; Usage);
    payloads!(Operand::Word: OperandBytes, Operand::Text: OperandBytes, PutError::Operand: usize);
    payloads!(EpdError::Token: usize, EpdError::Setup: FenError, EpdError::Opcode: usize);
    payloads!(EpdError::Repeated: usize, TableError::Line: usize, TableError::Count: usize);
    payloads!(BookError::Unsorted: usize, BookError::Cut: usize, LoadError::Line: u64);
    payloads!(Refusal::Fen: FenError, Refusal::Spelling: u32, Refusal::Illegal: u32);
    payloads!(Refusal::Conflict: u32, ParseFault::Usage: String);
}

/// Uses squares and setups (pb_board).
fn setups() -> Option<bool> {
    let made: Option<Square> = Square::new(4u8, 0u8);
    let e1: Square = made?;
    let e8: Option<Square> = Square::from_index(60u8);
    let numbers: [u8; 3] = [e1.file(), e1.rank(), e1.index()];
    let all: Rights = Rights {
        white_short: true,
        white_long: true,
        black_short: true,
        black_long: true,
    };
    let king: Piece = Piece {
        colour: Colour::White,
        kind: Kind::King,
    };
    let kings: [Option<Piece>; 64] = [Some(king); 64];
    let built: Result<Setup, SetupError> = Setup::build(kings, Colour::Black, all, e8);
    let start: Setup = Setup::start();
    let at: Option<Piece> = start.at(e1);
    let turn: Colour = start.turn();
    let rights: Rights = start.rights();
    let ep: Option<Square> = start.ep();
    Some(
        numbers == [4, 0, 4]
            && built == Err(SetupError::Kings)
            && at == Some(king)
            && turn == Colour::White
            && rights == all
            && ep == None,
    )
}

/// Uses FEN records (pb_board).
fn records(alloc: Global) -> Result<bool, AllocError> {
    let made: Option<Fen> = Fen::new(Setup::start(), 0u16, 1u16);
    let Some(fen) = made else {
        return Ok(false);
    };
    let setup: Setup = fen.setup();
    let clocks: [u16; 2] = [fen.half(), fen.full()];
    let text: FenBytes = fen.text();
    let bytes: &[u8] = text.as_bytes();
    let read: Result<Fen, FenError> = read_fen(bytes);
    let four: [&[u8]; 4] = [b"8/8/8/8/8/8/8/4K3", b"w", b"-", b"-"];
    let refused: Result<Setup, FenError> = read_setup(four);
    let whole: Result<Vec<u8>, AllocError> = write_fen(alloc, &fen);
    let front: Result<Vec<u8>, AllocError> = write_setup(alloc, &setup);
    let (whole, front) = (whole?, front?);
    Ok(
        clocks == [0, 1]
            && read == Ok(fen)
            && refused == Err(FenError::Kings)
            && whole.as_slice() == START.as_bytes()
            && front.len() == 52,
    )
}

/// Uses EPD records (pb_epd).
fn epd(alloc: Global, setup: Setup) -> Result<bool, AllocError> {
    let text: OperandBytes = OperandBytes::of(b"two kings".to_vec(alloc)?);
    let _bytes: &[u8] = text.as_bytes();
    let word: OperandBytes = OperandBytes::of(b"e1d1".to_vec(alloc)?);
    let operands: Vec<Operand> = vec![in alloc; Operand::Text(text), Operand::Word(word)]?;
    let mut epd: Epd = Epd::new(alloc, setup);
    let put: Result<(), PutError> = epd.put(b"9x", operands);
    let held: Setup = epd.setup();
    let len: usize = epd.len();
    let got: Option<&[Operand]> = epd.get(b"9x");
    let read: Result<Epd, EpdError> = read_epd(alloc, b"4k3/8/8/8/8/8/8/4K3 w - - ;");
    let written: Result<Vec<u8>, AllocError> = write_epd(alloc, &epd);
    Ok(
        put == Err(PutError::Opcode)
            && held == setup
            && len == 0
            && got.is_none()
            && read.err() == Some(EpdError::Opcode(1))
            && written?.len() == 52,
    )
}

fn first_move() -> Option<Move> {
    let made: Option<Move> = Move::new(Square::new(4, 1)?, Square::new(4, 3)?, None::<Kind>);
    made
}

/// Uses moves (pb_moves).
fn moves(alloc: Global, fen: &Fen, m: Move) -> Result<bool, AllocError> {
    let setup: Setup = fen.setup();
    let (from, to): (Square, Square) = (m.from(), m.to());
    let promo: Option<Kind> = m.promo();
    let text: MoveText = m.text();
    let bytes: &[u8] = text.as_bytes();
    let read: Option<Move> = read_move(bytes);
    let told: [bool; 4] = [
        attacked(&setup, to, Colour::White),
        in_check(&setup, Colour::White),
        playable(&setup),
        is_legal(&setup, m),
    ];
    let after: Option<Setup> = play(&setup, m);
    let next: Option<Fen> = advance(fen, m);
    let all: Result<Vec<Move>, AllocError> = legal_moves(alloc, &setup);
    Ok(
        Square::new(4, 1) == Some(from)
            && promo == None
            && read == Some(m)
            && told == [false, false, true, true]
            && after == next.map(|record| record.setup())
            && next == read_fen(b"rnbqkbnr/pppppppp/8/8/4P3/8/PPPP1PPP/RNBQKBNR b KQkq e3 0 1").ok()
            && all?.len() == 20,
    )
}

fn fills<S: Source>(source: &mut S) -> bool {
    let mut buffer: [u8; 8] = [0; 8];
    let filled: Result<usize, Failed> = source.fill(&mut buffer);
    let failed: bool = source.failed();
    filled == Ok(1) && !failed
}

fn puts<K: Sink>(sink: &mut K) -> bool {
    let put: Result<(), Failed> = sink.put(b"a");
    let flushed: Result<(), Failed> = sink.flush();
    let failed: bool = sink.failed();
    put == Ok(()) && flushed == Ok(()) && !failed
}

/// Uses the ends that bytes come from and go to (pb_poly).
fn ends(alloc: Global) -> bool {
    let mut room: [u8; 4] = [0; 4];
    let mut kept: MemSink = MemSink::new(alloc);
    let mut fuse: FuseSink = FuseSink::new(alloc, 2u32);
    let all_put = puts(&mut kept)
        && puts(&mut fuse)
        && puts(&mut ToWrite::new(Cursor::new(room.as_mut_slice())));
    let bytes: &[u8] = kept.as_bytes();
    let passed: &[u8] = fuse.as_bytes();
    let mut memory: MemSource<'_> = MemSource::new(b"ab", 1usize);
    let mut fused: FuseSource<'_> = FuseSource::new(b"ab", 1usize, 1u32);
    let mut never: NeverSource = NeverSource::new(97u8);
    all_put
        && bytes == passed
        && fills(&mut memory)
        && fills(&mut fused)
        && fills(&mut FromRead::new(Cursor::new(b"a".as_slice())))
        && never.fill(&mut [0]) == Ok(1)
}

/// Uses codes of moves, tables and keys (pb_poly).
fn keys(table: &Table, setup: &Setup, m: Move) -> bool {
    let code: u16 = code_of(setup, m);
    let coded: Option<Move> = move_of(setup, code);
    let word: u64 = table.word(780usize);
    let key: u64 = key_of(table, setup);
    let Some(after) = play(setup, m) else {
        return false;
    };
    let next: u64 = key_after(table, key, setup, m, &after);
    code == 0x031c && coded == Some(m) && word == 1 && key == 1 && next == 0
}

/// Uses books (pb_poly).
fn books(alloc: Global, table: &Table, setup: &Setup, m: Move) -> Result<bool, AllocError> {
    let entry: Entry = Entry {
        key: 1u64,
        code: 0x031c_u16,
        weight: 2u16,
        learn: 0u32,
    };
    let made: Result<Book, (usize, Vec<Entry>)> = Book::of(vec![in alloc; entry]?);
    let Ok(book) = made else {
        return Ok(false);
    };
    let entries: &[Entry] = book.entries();
    let mut sink = MemSink::new(alloc);
    let one: Result<(), Failed> = write_entry(&mut sink, &entry);
    let all: Result<(), Failed> = write_book(&mut sink, &book);
    let mut source = MemSource::new(b"seventeen bytes..", 16);
    let read: Result<Book, BookError> = read_book(alloc, &mut source, u32::MAX);
    let found: Result<Vec<(Move, u16)>, AllocError> = probe(alloc, &book, table, setup);
    Ok(
        entries == [entry].as_slice()
            && one == Ok(())
            && all == Ok(())
            && read.err() == Some(BookError::Cut(1))
            && found?.first() == Some(&(m, 2)),
    )
}

/// Uses a map from keys and codes to points and occurrences (pb_ledger).
fn tally<T: Tally>(alloc: Global) -> Result<bool, AllocError> {
    let mut tally: T = T::new(alloc);
    let made: Result<(), AllocError> = tally.ensure(5u64, 7u16);
    made?;
    tally.add(5u64, 7u16, 2u64);
    let (points, times): (u64, u64) = (tally.points(5u64, 7u16), tally.times(5u64, 7u16));
    let rows: Result<Vec<Row>, AllocError> = tally.rows(alloc);
    let row: Row = Row {
        key: 5u64,
        code: 7u16,
        points,
        times,
    };
    Ok(points == 2 && times == 1 && rows?.as_slice() == [row].as_slice())
}

/// Uses submission lines (pb_ledger).
fn lines() -> Option<bool> {
    let checked: Result<Line<'_>, Refusal> = check_line(LINE);
    let line: Line<'_> = checked.ok()?;
    let id: Id = line.id();
    let bytes: &[u8] = line.id_bytes();
    let same: Option<Id> = Id::new(bytes);
    let own: &[u8] = id.as_bytes();
    let start: Fen = line.start();
    let outcome: Outcome = line.outcome();
    let count: u32 = line.plies();
    let mut plies: Plies<'_> = line.moves();
    let first: Option<Move> = plies.next();
    let weight: u16 = scale(65_535u64, 65_536u64);
    Some(
        same == Some(id)
            && own == bytes
            && start == read_fen(START.as_bytes()).ok()?
            && outcome == Outcome::White
            && count == 3
            && first == read_move(b"e2e4")
            && weight == 65_534,
    )
}

/// Uses a ledger of games (pb_ledger).
fn ledger<T: Tally>(alloc: Global, table: &Table) -> Result<bool, AllocError> {
    let none: MoveList = MoveList::of(Vec::new(alloc));
    let made: Result<Ledger<T>, AllocError> = Ledger::new(alloc, table, 1_000u32);
    let mut ledger: Ledger<T> = made?;
    let number: Result<u32, Refusal> = ledger.submit(LINE);
    let len: u32 = ledger.len();
    let rules: Rules = ledger.rules();
    let numbers: [u32; 2] = [rules.plies(), rules.least()];
    let _table: &Table = ledger.table();
    let game: Option<(&Id, &Game)> = ledger.get(1u32);
    let book: Result<Book, AllocError> = ledger.make_book(alloc);
    let mut sink = MemSink::new(alloc);
    let exported: Result<u32, ExportFault> = export(alloc, &ledger, &mut sink);
    Ok(
        none.as_slice().is_empty()
            && number == Ok(1)
            && len == 1
            && numbers == [1_024, 1]
            && game.is_some_and(|(id, game)| is_first(id, game))
            && book?.entries().len() == 2
            && exported == Ok(2),
    )
}

fn is_first(id: &Id, game: &Game) -> bool {
    let Game {
        start,
        outcome,
        moves,
    } = game;
    let listed: &[Move] = moves.as_slice();
    Id::new(b"g1") == Some(*id)
        && read_fen(START.as_bytes()) == Ok(*start)
        && *outcome == Outcome::White
        && listed.len() == 3
}

/// Uses streams of lines and saved ledgers (pb_ledger).
fn streams<T: Tally>(alloc: Global, table: &Table, rules: Rules) -> Result<bool, AllocError> {
    let made: Result<Ledger<T>, AllocError> = Ledger::with_rules(alloc, table, 1_000u32, rules);
    let mut ledger: Ledger<T> = made?;
    let fills: u32 = 9;
    let mut saved = MemSource::new(b"pbook-ledger 2", 16);
    let mut lines = MemSource::new(LINE, 128);
    let mut sink = MemSink::new(alloc);
    let loaded: Result<u32, LoadError> = load(alloc, &mut saved, &mut ledger, fills);
    let collected: Result<Totals, CollectFault> = collect(
        alloc,
        &mut lines,
        &mut sink,
        &mut ledger,
        fills,
    );
    let kept: Result<(), Failed> = save(&ledger, &mut sink);
    let totals: Totals = Totals {
        lines: 1u64,
        new: 1u64,
        repeats: 0u64,
        refused: 0u64,
    };
    Ok(loaded == Err(LoadError::Line(1)) && collected == Ok(totals) && kept == Ok(()))
}

/// Uses the commands over the table's text, and their statuses (pb_cli).
fn commands(alloc: Global, rules: Rules, table: &[u8]) -> Result<bool, Fault> {
    let moves: [&str; 1] = ["e2e4"];
    let fills: u32 = 9;
    let mut sink = MemSink::new(alloc);
    let fen: Result<bool, Fault> = run_fen(alloc, START.as_bytes(), &moves, &mut sink);
    let number: u8 = status(fen);
    let mut none = MemSource::new(b"", 1);
    let epd: Result<bool, Fault> = run_epd(alloc, &mut none, &mut sink, fills);
    let show: Result<bool, Fault> = run_show(alloc, &mut none, &mut sink, fills);
    let mut read = MemSource::new(table, 16_384);
    let found: Result<bool, Fault> = run_probe(
        alloc,
        &mut read,
        &mut none,
        START.as_bytes(),
        &mut sink,
        fills,
    );
    let mut read = MemSource::new(table, 16_384);
    let mut lines = MemSource::new(LINE, 128);
    let listed: Result<bool, Fault> = run_export(
        alloc, rules, &mut read, &mut lines, &mut sink, fills,
    );
    Ok(
        fen == Ok(true)
            && number == 0
            && epd == Ok(true)
            && show == Ok(true)
            && found == Ok(true)
            && listed == Ok(true),
    )
}

/// Uses the commands that give a book (pb_cli).
fn collections(alloc: Global, rules: Rules, table: &[u8]) -> Result<bool, Fault> {
    let fills: u32 = 9;
    let mut sink = MemSink::new(alloc);
    let mut read = MemSource::new(table, 16_384);
    let mut lines = MemSource::new(LINE, 128);
    let made: Result<Option<Book>, Fault> = run_collect(
        alloc, rules, &mut read, &mut lines, &mut sink, fills,
    );
    let mut read = MemSource::new(table, 16_384);
    let mut saved = MemSource::new(LINE, 128);
    let mut lines = MemSource::new(b"", 1);
    let both: Result<Option<Continued>, Fault> = run_continue(
        alloc, rules, &mut read, &mut saved, &mut lines, &mut sink, fills,
    );
    let (Some(collected), Some(Continued { ledger, book })) = (made?, both?) else {
        return Ok(false);
    };
    let ledger: Ledger<MapTally> = ledger;
    let book: Result<Book, Fault> = book;
    Ok(ledger.len() == 1 && book?.entries() == collected.entries())
}

/// Uses the command line (pb_cli).
fn order(alloc: Global) -> bool {
    let words: [&str; 3] = ["pbook", "show", "book.bin"];
    let order: Result<Order<'_>, ParseFault> = parse(alloc, &words);
    matches!(order, Ok(Order::Show { .. }))
}

/// Makes the text of a table whose 781 numbers are 1.
fn ones(alloc: Global) -> Result<Vec<u8>, AllocError> {
    let mut text: Vec<u8> = Vec::new(alloc);
    for _ in 0..781 {
        text.extend_from_slice(b"0000000000000001\n")?;
    }
    Ok(text)
}

/// Calls all of it, and tells whether each answer is the one that is due.
pub fn surface(alloc: Global) -> Result<bool, AllocError> {
    traits();
    members();
    let start = Setup::start();
    let rules: Option<Rules> = Rules::new(1_024u32, 1u32);
    let (Some(fen), Some(m), Some(rules)) = (Fen::new(start, 0, 1), first_move(), rules) else {
        return Ok(false);
    };
    let text = ones(alloc)?;
    let read: Result<Table, TableError> = read_table(alloc, text.as_slice());
    let Ok(table) = read else {
        return Ok(false);
    };
    Ok(
        setups() == Some(true)
            && read_table(alloc, b"").err() == Some(TableError::Count(0))
            && records(alloc)?
            && epd(alloc, start)?
            && moves(alloc, &fen, m)?
            && ends(alloc)
            && keys(&table, &start, m)
            && books(alloc, &table, &start, m)?
            && tally::<ListTally>(alloc)?
            && tally::<MapTally>(alloc)?
            && lines() == Some(true)
            && ledger::<ListTally>(alloc, &table)?
            && ledger::<MapTally>(alloc, &table)?
            && streams::<ListTally>(alloc, &table, rules)?
            && streams::<MapTally>(alloc, &table, rules)?
            && commands(alloc, rules, text.as_slice()) == Ok(true)
            && collections(alloc, rules, text.as_slice()) == Ok(true)
            && order(alloc),
    )
}
