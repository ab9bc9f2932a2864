//! EPD records.

ghost use Rattle.std.specs.Prelude.{◌≡◌, ◌↔◌, [], IsTrue, List, length, Contains, MatchOption};
ghost use Rattle.pb_epd.specs.Epd.{EpdRecord, IsEpd, operations_of};
ghost use Rattle.pb_epd.specs.Operation.{IsOperation};
ghost use Rattle.pb_epd.specs.Refusal.{PutsOperation};
ghost use Rattle.pb_epd.specs.declared.operation.Operand.{Operand};

use crate::operation::{Operand, first_unlawful, is_opcode};
use crate::refusal::PutError;
use pb_board::Setup;
use std::alloc::Global;
use std::collections::BTreeMap;
use std::marker::Model;

/// Holds a setup, and operations in byte order of their opcodes, of which none stands twice.
#[derive(Drop)]
pub struct Epd {
    alloc: Global,
    setup: Setup,
    operations: BTreeMap<Vec<u8>, Vec<Operand>>,
}

impl Model for Epd {
    ghost use Rattle.pb_epd.specs.Epd.{EpdRecord, IsEpd, operations_of};

    ghost Value = { EpdRecord };

    ghost view = { λ e. record { setup = e.setup; operations = operations_of e.operations.entries } };

    ghost invariant = { λ e. IsEpd (record {
      setup = e.setup;
      operations = operations_of e.operations.entries;
    }) };
}

impl Epd {
    /// Makes a record without operations.
    pub fn new(alloc: Global, setup: Setup) -> Epd
        ensures value { result ≡ record { setup = setup; operations = [] } }
        ensures rules { IsEpd result }
    {
        Epd {
            alloc,
            setup,
            operations: BTreeMap::new(alloc),
        }
    }

    /// Gives the setup.
    pub fn setup(&self) -> Setup
        ensures value { result ≡ self.now.setup }
        ensures rules { IsEpd self.now }
    {
        self.setup
    }

    pub(crate) fn operations(&self) -> &BTreeMap<Vec<u8>, Vec<Operand>>
        ensures { operations_of result.now.entries ≡ self.now.operations }
    {
        &self.operations
    }

    /// Counts the operations.
    pub fn len(&self) -> usize
        ensures { result ≡ length self.now.operations }
    {
        self.operations.len()
    }

    /// Tells whether there is no operation.
    pub fn is_empty(&self) -> bool
        ensures { IsTrue result ↔ (self.now.operations ≡ []) }
    {
        self.operations.is_empty()
    }

    /// Gives the operands of an opcode. None exactly where the record has no operation with it.
    pub fn get(&self, opcode: &[u8]) -> Option<&[Operand]>
        ensures { MatchOption result
            ((operands : List Operand) → ¬ Contains self.now.operations (opcode.now, operands))
            (λ operands. Contains self.now.operations (opcode.now, operands.now)) }
    {
        Some(self.operations.get(opcode)?.as_slice())
    }

    /// Adds an operation, or answers the first refusal that is due, in the order of `PutError`'s
    /// variants: the record then stays as it was, and the operands are dropped.
    pub fn put(&mut self, opcode: &[u8], operands: Vec<Operand>) -> Result<(), PutError>
        ensures { PutsOperation self.old self.new (opcode.now, operands.items) result }
    {
        if !is_opcode(opcode) {
            return Err(PutError::Opcode);
        }
        if let Some(n) = first_unlawful(operands.as_slice()) {
            return Err(PutError::Operand(n));
        }
        self.add(opcode, operands)
    }

    pub(crate) fn add(&mut self, opcode: &[u8], operands: Vec<Operand>) -> Result<(), PutError>
        requires { IsOperation (opcode.now, operands.items) }
        ensures rules { IsEpd self.new }
        ensures puts { PutsOperation self.old self.new (opcode.now, operands.items) result }
    {
        if self.operations.contains_key(opcode) {
            return Err(PutError::Repeated);
        }
        let Ok(key) = opcode.to_vec(self.alloc) else {
            return Err(PutError::Memory);
        };
        match self.operations.insert(key, operands) {
            Ok(_) => Ok(()),
            Err(_) => Err(PutError::Memory),
        }
    }
}
