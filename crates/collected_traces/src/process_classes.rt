//! Classes of process keys whose processes are equal.

ghost use Rattle.std.specs.Prelude.{◌≡◌, ◌==◌, ℕ, Option, Some, IfOk, IfSome, OnOk, OnErr, if◌then◌else◌};
ghost use Rattle.std.specs.BTreeMap.{get};
ghost use Rattle.std.specs.Ordering.{nat_cmp};
ghost use Rattle.jaeger_model.specs.declared.batch.Process.{Process as ProcessValue};
ghost use Rattle.collected_traces.specs.ProcessClasses.{Leads};

use crate::recurring::Recurring;
use jaeger_model::{ByContent, Process};
use std::alloc::{AllocError, Global};
use std::collections::BTreeMap;

/// A key, and its class.
#[derive(Clone, Copy)]
pub(crate) struct KeyClass {
    key: u32,
    class: u32,
}

/// The classes of keys, as spans have them: keys whose processes are equal have one class, which is the first
/// of them. A process is compared with the others once for each key.
#[derive(Drop)]
pub(crate) struct ProcessClasses<'a> {
    /// The keys whose processes are compared, or `None` for all. Each other key is a class of its own.
    compared: Option<Recurring>,
    /// The class of each process.
    by_process: BTreeMap<ByContent<'a>, u32>,
    /// The class of each key.
    by_key: BTreeMap<u32, u32>,
    /// The key whose class was requested last. The spans of an entry mostly follow one another in a trace.
    last: Option<KeyClass>,
}

/// Returns the class of a key, if it is known.
fn known(by_key: &BTreeMap<u32, u32>, key: u32) -> Option<u32>
    ensures { result ≡ get nat_cmp by_key.now key }
{
    by_key.get(&key).copied()
}

/// Stores the class of a key.
fn keep(by_key: &mut BTreeMap<u32, u32>, key: u32, class: u32) -> Result<(), AllocError>
    ensures kept { OnOk result ((n : ℕ) → get nat_cmp by_key.new n ≡
        (if key == n then Some class else get nat_cmp by_key.old n)) }
    ensures err { OnErr result ((n : ℕ) → get nat_cmp by_key.new n ≡ get nat_cmp by_key.old n) }
{
    by_key.insert(key, class)?;
    Ok(())
}

impl<'a> ProcessClasses<'a> {
    /// Makes the classes of keys, and compares only those that recur. The process of another one is compared in its
    /// one trace, and not here.
    pub(crate) fn of_recurring(alloc: Global, recurring: Recurring) -> Self
        ensures { (process_of : ℕ → Option ProcessValue) → Leads process_of result }
    {
        Self::comparing(alloc, Some(recurring))
    }

    /// Makes the classes of keys that are all compared.
    pub(crate) fn of_all(alloc: Global) -> Self
        ensures { (process_of : ℕ → Option ProcessValue) → Leads process_of result }
    {
        Self::comparing(alloc, None)
    }

    fn comparing(alloc: Global, compared: Option<Recurring>) -> Self
        ensures { (process_of : ℕ → Option ProcessValue) → Leads process_of result }
    {
        ProcessClasses {
            compared,
            by_process: BTreeMap::new(alloc),
            by_key: BTreeMap::new(alloc),
            last: None,
        }
    }

    /// Returns the class of a process, which is this key if no equal one has a class yet.
    fn class_of_process(&mut self, process: &'a Process, key: u32) -> Result<u32, AllocError>
        ensures class { (process_of : ℕ → Option ProcessValue) →
            process_of key ≡ Some process.now → Leads process_of self.old →
            IfOk result (λ class. process_of class ≡ process_of key) }
        ensures leads { (process_of : ℕ → Option ProcessValue) →
            process_of key ≡ Some process.now → Leads process_of self.old →
            Leads process_of self.new }
    {
        let content = ByContent(process);
        if let Some(class) = self.by_process.get(&content).copied() {
            return Ok(class);
        }
        self.by_process.insert(content, key)?;
        Ok(key)
    }

    /// Returns the class of this key, if it was requested last.
    fn last_class(&self, key: u32) -> Option<u32>
        ensures { (process_of : ℕ → Option ProcessValue) → Leads process_of self.now →
            IfSome result (λ class. process_of class ≡ process_of key) }
    {
        match self.last {
            Some(last) if last.key == key => Some(last.class),
            _ => None,
        }
    }

    /// Returns whether the process of a key is compared with the others.
    fn is_compared(&self, key: u32) -> bool {
        match &self.compared {
            Some(recurring) => recurring.has(key),
            None => true,
        }
    }

    /// Looks up the class of a key, which has this process.
    fn find_class(&mut self, process: &'a Process, key: u32) -> Result<u32, AllocError>
        ensures class { (process_of : ℕ → Option ProcessValue) →
            process_of key ≡ Some process.now → Leads process_of self.old →
            IfOk result (λ class. process_of class ≡ process_of key) }
        ensures leads { (process_of : ℕ → Option ProcessValue) →
            process_of key ≡ Some process.now → Leads process_of self.old →
            Leads process_of self.new }
    {
        if !self.is_compared(key) {
            return Ok(key);
        }
        if let Some(class) = known(&self.by_key, key) {
            return Ok(class);
        }
        let class = self.class_of_process(process, key)?;
        keep(&mut self.by_key, key, class)?;
        Ok(class)
    }

    /// Returns the class of a key, which has this process. It is looked up only if another key was requested last.
    pub(crate) fn class_of(&mut self, process: &'a Process, key: u32) -> Result<u32, AllocError>
        ensures class { (process_of : ℕ → Option ProcessValue) →
            process_of key ≡ Some process.now → Leads process_of self.old →
            IfOk result (λ class. process_of class ≡ process_of key) }
        ensures leads { (process_of : ℕ → Option ProcessValue) →
            process_of key ≡ Some process.now → Leads process_of self.old →
            Leads process_of self.new }
    {
        if let Some(class) = self.last_class(key) {
            return Ok(class);
        }
        let class = self.find_class(process, key)?;
        self.last = Some(KeyClass { key, class });
        Ok(class)
    }
}
