//! One caller of a shared registry.

ghost use Rattle.std.specs.Prelude.{◌≡◌, ◌<◌, ◌≤◌, ◌↔◌, true, length, IsTrue, IfOk, IfErr, IfSome, OnOk, OnErr, MatchOption};
ghost use Rattle.std.specs.Arc.{arc_value};
ghost use Rattle.stabby_tables.specs.Lists.{has, IsDistinct};
ghost use Rattle.stabby_registry.specs.Passes.{IsPassOf};
ghost use Rattle.stabby_registry.specs.Inserts.{IsNumber};
ghost use Rattle.stabby_registry.specs.Tries.{IsOwnFault};
ghost use mathlib.Core.List.{IsPrefix};

use crate::answer::Answer;
use stabby_registry::{CellFault, TreePass, TryFault, VtBtree, WordTable};
use std::alloc::Global;
use std::sync::Arc;

// The weight of all clients of a registry.
const WHOLE: u64 = 1 << 32;

/// A registry, and the number by which its caller tells it from others.
#[derive(Drop)]
pub struct Home {
    registry: VtBtree<5>,
    number: u64,
}

/// A shared registry and this caller's pass of it.
#[derive(Drop)]
pub struct Client {
    home: Arc<Home, Global>,
    pass: TreePass<5>,
    ghost belongs: { IsPassOf (arc_value home).registry pass },
}

impl Client {
    ghost use Rattle.stabby_c.specs.Clients.{home_of, number_of, front_of, weight_of, IsAlone, IsNewClient, SplitsOff, IsSplitRefusal, IsForeign, JoinsClient, OnlyLooked, ReadFault, InsertFault, AddsOrKnows, HasCopied, TriesInsert, TriesRead, ReadsCount};

    /// The first client of a new registry that this number names.
    ///
    /// `None` where memory can't be had.
    pub fn new(alloc: Global, number: u64) -> Option<Box<Client, Global>>
        ensures { IfSome result (λ client. IsNewClient number client.value) }
    {
        let Ok((registry, pass)) = VtBtree::<5>::new(alloc) else {
            return None;
        };
        let Ok(home) = Arc::new(alloc, Home { registry, number }) else {
            return None;
        };
        match Box::new(alloc, Client { home, pass }) {
            Ok(client) => Some(client),
            Err(_) => None,
        }
    }

    /// The part of 2^32, all clients' weight, that this one has.
    pub fn weight(&self) -> u64
        ensures weight { result ≡ weight_of self.now }
        ensures live { 0 < result }
    {
        self.pass.weight()
    }

    /// A further client of the same registry, with this weight, cut off this one's.
    ///
    /// # Errors
    /// `Light` exactly where the weight is 0, or not below this client's; else `Memory`. This client weighs what it did.
    pub fn split(&mut self, alloc: Global, weight: u64) -> Result<Box<Client, Global>, Answer>
        ensures same { home_of self.new ≡ home_of self.old }
        ensures front { IsPrefix (front_of self.old) (front_of self.new) }
        ensures ok { IfOk result (λ part. SplitsOff self.old self.new part.value weight) }
        ensures refused { IfErr result (IsSplitRefusal self.old weight) }
        ensures unchanged { OnErr result (weight_of self.new ≡ weight_of self.old) }
    {
        if weight == 0 || self.pass.weight() <= weight {
            return Err(Answer::Light);
        }
        let Ok(home) = Arc::try_clone(&self.home) else {
            return Err(Answer::Memory);
        };
        let pass = self.home.registry.split(&mut self.pass, weight);
        match Box::new(alloc, Client { home, pass }) {
            Ok(part) => Ok(part),
            Err(refused) => {
                let Client { home: _, pass } = refused.value;
                self.home.registry.join(&mut self.pass, pass);
                Err(Answer::Memory)
            }
        }
    }

    /// Whether the other client is foreign: its registry has another number, or both weigh more than a registry has.
    pub fn is_foreign(&self, other: &Client) -> bool
        ensures { IsTrue result ↔ IsForeign self.now other.now }
    {
        self.home.number != other.home.number || WHOLE - self.pass.weight() < other.pass.weight()
    }

    /// Puts another client of the same registry into this one.
    pub fn join(&mut self, other: Client)
        requires same { home_of self.old ≡ home_of other }
        ensures { JoinsClient self.old other self.new }
    {
        let Client { home: _, pass } = other;
        self.home.registry.join(&mut self.pass, pass);
    }

    /// The number of the table of these words, by one try.
    ///
    /// # Errors
    /// As `VtBtree::try_insert`.
    pub fn try_insert(&mut self, alloc: Global, words: &[u64]) -> Result<u64, TryFault>
        ensures same { home_of self.new ≡ home_of self.old }
        ensures front { IsPrefix (front_of self.old) (front_of self.new) }
        ensures number { IfOk result (λ n. IsNumber (front_of self.new) words.now n) }
        ensures inserts { IfOk result (AddsOrKnows self.old self.new words.now) }
        ensures distinct { OnOk result (IsDistinct (front_of self.new)) }
        ensures known { has (front_of self.old) words.now ≡ true → OnOk result (OnlyLooked self.old self.new) }
        ensures tried { TriesInsert self.old self.new result }
        ensures refused { IfErr result (InsertFault self.old self.new words.now) }
        ensures alone { IsAlone self.old → IfErr result IsOwnFault }
    {
        let table = WordTable::from_words(alloc, words)?;
        self.home.registry.try_insert(alloc, &mut self.pass, &table)
    }

    /// How many tables there are.
    pub fn count(&mut self) -> u64
        ensures same { home_of self.new ≡ home_of self.old }
        ensures count { result ≡ length (front_of self.new) }
        ensures looked { ReadsCount self.old self.new result }
        ensures front { IsPrefix (front_of self.old) (front_of self.new) }
    {
        self.home.registry.look(&mut self.pass)
    }

    /// Copies the words of the table with this number, as many as there is room for, and tells how many it has.
    ///
    /// `None` exactly where no table has this number.
    ///
    /// # Errors
    /// As `VtBtree::try_entry`.
    pub fn try_entry(&mut self, number: u64, words: &mut [u64]) -> Result<Option<usize>, CellFault>
        ensures same { home_of self.new ≡ home_of self.old }
        ensures front { IsPrefix (front_of self.old) (front_of self.new) }
        ensures entry { IfOk result (λ found. MatchOption found (length (front_of self.new) ≤ number)
            (HasCopied (front_of self.new) number words.old words.new)) }
        ensures absent { IfOk result (λ found. MatchOption found (words.new ≡ words.old) (λ n. Unit {0})) }
        ensures tried { TriesRead self.old self.new result }
        ensures refused { IfErr result (ReadFault self.old self.new) }
        ensures unchanged { OnErr result (words.new ≡ words.old) }
    {
        let Some(table) = self.home.registry.try_entry(&mut self.pass, number)? else {
            return Ok(None);
        };
        let found = table.words();
        let room = words.len().min(found.len());
        words[..room].copy_from_slice(&found[..room]);
        Ok(Some(found.len()))
    }
}

fn crosses<T: Send>(value: T) -> T
    ensures { result ≡ value }
{
    value
}

// A client may go to another thread.
pub fn sent(client: Client) -> Client
    ensures { result ≡ client }
{
    crosses(client)
}
