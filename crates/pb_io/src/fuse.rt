//! Ends for tests: those that fail once their fuse blows, and one that never ends.

ghost use Rattle.std.specs.Prelude.{◌≡◌, ◌≤◌, OnErr, OnOk, Some, ◌&&◌, [], not, true, None};
ghost use Rattle.pb_io.specs.Fuse.{FuseFill, FuseFlush, FusePut, GivesOne};
ghost use Rattle.pb_io.specs.Source.{Fill, GivesPiece, new_source};
ghost use Rattle.pb_io.specs.Sink.{Flush, Put, new_sink};

use crate::history::History;
use crate::sink::{MemSink, Sink};
use crate::source::{Failed, FillCounts, MemSource, Source};
use std::alloc::Global;

/// Bytes in memory, of which a given number of fills pass. The next one fails, and so does each
/// later one.
///
/// A fill of an empty slice is not counted: it fails only once another fill has failed.
#[derive(Drop)]
pub struct FuseSource<'a> {
    pub source: MemSource<'a>,
    /// How many of the next fills pass.
    pub good: u32,
    fills: FillCounts,
    failed: bool,
}

impl<'a> FuseSource<'a> {
    /// Makes a source of these bytes, at most `piece` at a fill, of which so many pass.
    pub fn new(bytes: &'a [u8], piece: usize, good: u32) -> FuseSource<'a>
        requires { 1 ≤ piece }
        ensures state { ⟦<FuseSource<'a> as Source>⟧.state result ≡ new_source (Some bytes.now) }
        ensures good { result.good ≡ good }
        ensures piece { result.source.piece ≡ piece }
    {
        FuseSource {
            source: MemSource::new(bytes, piece),
            good,
            fills: FillCounts::default(),
            failed: false,
        }
    }
}

impl<'a> Source for FuseSource<'a> {
    ghost state = { λ s. record (⟦<MemSource<'a> as Source>⟧.state s.source) {
      fills = s.fills.some;
      empty_fills = s.fills.empty;
      failed = s.failed;
    } };

    fn fill(&mut self, into: &mut [u8]) -> Result<usize, Failed>
        ensures fill { Fill (⟦<FuseSource<'a> as Source>⟧.state self.old)
            (⟦<FuseSource<'a> as Source>⟧.state self.new) result into.new }
        ensures fuse { FuseFill (⟦<FuseSource<'a> as Source>⟧.state self.old) self.old.good
            self.new.good result into.new }
        ensures gives { OnOk result (GivesPiece
            (⟦<FuseSource<'a> as Source>⟧.state self.old).to_come self.old.source.piece result
            into.old into.new) }
        ensures untouched { OnErr result (into.new ≡ into.old) }
        ensures piece { self.new.source.piece ≡ self.old.source.piece }
    {
        self.fills.add(into.len());
        if !into.is_empty() {
            self.failed = self.failed || self.good == 0;
            self.good = self.good.saturating_sub(1);
        }
        if self.failed {
            return Err(Failed);
        }
        self.source.fill(into)
    }

    fn failed(&self) -> bool {
        self.failed
    }
}

/// Bytes in memory, of which a given number of puts and flushes pass. The next one fails, and so
/// does each later one.
///
/// A put that fails so takes the first half of its bytes, rounded down, and one that finds no
/// memory none.
#[derive(Drop)]
pub struct FuseSink {
    sink: MemSink,
    /// How many of the next puts and flushes pass.
    pub good: u32,
    failed: bool,
    ghost fails_too: { (⟦<MemSink as Sink>⟧.state sink).failed ≡ true → failed ≡ true },
}

impl FuseSink {
    /// Makes a sink without bytes, of which so many puts and flushes pass.
    pub fn new(alloc: Global, good: u32) -> FuseSink
        ensures state { ⟦<FuseSink as Sink>⟧.state result ≡ new_sink (Some []) (Some []) }
        ensures good { result.good ≡ good }
    {
        FuseSink {
            sink: MemSink::new(alloc),
            good,
            failed: false,
        }
    }

    /// Gives the bytes taken so far.
    pub fn as_bytes(&self) -> &[u8]
        ensures { (⟦<FuseSink as Sink>⟧.state self.now).bytes ≡ Some result.now }
    {
        self.sink.as_bytes()
    }
}

impl Sink for FuseSink {
    ghost state = { λ s. let sink = ⟦<MemSink as Sink>⟧.state s.sink in
        record sink { failed = s.failed; flushed = sink.flushed && not s.failed } };

    fn put(&mut self, bytes: &[u8]) -> Result<(), Failed>
        ensures put { Put (⟦<FuseSink as Sink>⟧.state self.old)
            (⟦<FuseSink as Sink>⟧.state self.new) result bytes.now }
        ensures fuse { FusePut (⟦<FuseSink as Sink>⟧.state self.old)
            (⟦<FuseSink as Sink>⟧.state self.new) self.old.good self.new.good result bytes.now }
    {
        let blows = self.good == 0;
        self.good = self.good.saturating_sub(1);
        if self.failed {
            return Err(Failed);
        }
        let passing = if blows {
            &bytes[..bytes.len() / 2]
        } else {
            bytes
        };
        let starved = self.sink.put(passing).is_err();
        self.failed = blows || starved;
        if self.failed { Err(Failed) } else { Ok(()) }
    }

    fn flush(&mut self) -> Result<(), Failed>
        ensures flush { Flush (⟦<FuseSink as Sink>⟧.state self.old)
            (⟦<FuseSink as Sink>⟧.state self.new) result }
        ensures fuse { FuseFlush (⟦<FuseSink as Sink>⟧.state self.old) self.old.good self.new.good
            result }
    {
        self.failed = self.failed || self.good == 0;
        self.good = self.good.saturating_sub(1);
        if self.failed {
            return Err(Failed);
        }
        self.sink.flush()
    }

    fn failed(&self) -> bool {
        self.failed
    }
}

/// One byte over and over, one at a fill. It never ends and never fails.
#[derive(Drop)]
pub struct NeverSource {
    pub byte: u8,
    history: History,
    fills: FillCounts,
}

impl NeverSource {
    /// Makes a source of this byte over and over.
    pub fn new(byte: u8) -> NeverSource
        ensures state { ⟦<NeverSource as Source>⟧.state result ≡ new_source None }
        ensures byte { result.byte ≡ byte }
    {
        NeverSource {
            byte,
            history: History::new(),
            fills: FillCounts::default(),
        }
    }
}

impl Source for NeverSource {
    ghost state = { λ s. record (new_source None) {
      handed = s.history.bytes;
      fills = s.fills.some;
      empty_fills = s.fills.empty;
    } };

    fn fill(&mut self, into: &mut [u8]) -> Result<usize, Failed>
        ensures fill { Fill (⟦<NeverSource as Source>⟧.state self.old)
            (⟦<NeverSource as Source>⟧.state self.new) result into.new }
        ensures one { GivesOne self.old.byte result into.old into.new }
        ensures byte { self.new.byte ≡ self.old.byte }
    {
        self.fills.add(into.len());
        if into.is_empty() {
            return Ok(0);
        }
        into[0] = self.byte;
        self.history.add(&into[..1]);
        Ok(1)
    }

    fn failed(&self) -> bool {
        false
    }
}
