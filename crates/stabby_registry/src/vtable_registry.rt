//! Registries of tables, whatever they are kept in.

ghost use Rattle.std.specs.Prelude.{◌≡◌, ℕ, List, true, IfOk, IfErr, OnOk};
ghost use mathlib.Core.List.{IsPrefix};
ghost use Rattle.stabby_tables.specs.Lists.{has, IsDistinct};
ghost use Rattle.stabby_cell.specs.Passes.{front_of, Looked};
ghost use Rattle.stabby_registry.specs.Inserts.{IsNumber, InsertsTable, IsInsertFault};
ghost use Rattle.stabby_registry.specs.Passes.{IsPassOf};
ghost use Rattle.stabby_registry.specs.declared.fault.RegistryFault.{RegistryFault as Fault};

use crate::fault::RegistryFault;
use crate::gate::OpenGate;
use crate::registry::{TreePass, VtBtree};
use stabby_word_table::{ListsWords, WordTable};
use std::alloc::Global;
use std::sync::Wait;

/// A registry that gives each distinct table one number, whichever caller is first.
///
/// A caller's pass keeps its front: the prefix of the registry's list of tables that it has seen.
pub trait VTableRegistry {
    /// What one caller has seen of the registry.
    type Pass;

    // The pass belongs to the registry, and may be used.
    ghost belongs: { Self → Self.Pass → Type 0 };

    // The tables that the caller has seen.
    ghost front: { Self.Pass → List (List ℕ) };

    // The call read the registry and added nothing.
    ghost looked: { Self.Pass → Self.Pass → Type 0 };

    // What an insert that gave the table this number did: the pass before and after, the table, the number.
    ghost inserts: { Self.Pass → Self.Pass → List ℕ → ℕ → Type 0 };

    // Why an insert was refused, and what stands.
    ghost refuses: { Self.Pass → Self.Pass → List ℕ → Fault → Type 0 };

    /// The table's number: its place in the registry's list. An absent table is added at the end.
    ///
    /// # Errors
    /// Nothing was added by the call.
    fn insert<H: Wait>(
        &self,
        rt: &H,
        alloc: Global,
        pass: &mut Self::Pass,
        table: &WordTable,
    ) -> Result<u64, RegistryFault>
        requires { belongs self.now pass.old }
        ensures pass { belongs self.now pass.new }
        ensures front { IsPrefix (front pass.old) (front pass.new) }
        ensures number { IfOk result (λ n. IsNumber (front pass.new) table.now n) }
        ensures inserts { IfOk result (inserts pass.old pass.new table.now) }
        ensures distinct { OnOk result (IsDistinct (front pass.new)) }
        ensures known { has (front pass.old) table.now ≡ true → OnOk result (looked pass.old pass.new) }
        ensures refused { IfErr result (refuses pass.old pass.new table.now) };

    /// `insert` of the table of the words that a value lists.
    ///
    /// # Errors
    /// As `insert`, and `Memory` where the list finds none.
    fn insert_typed<Vt: ListsWords, H: Wait>(
        &self,
        rt: &H,
        alloc: Global,
        pass: &mut Self::Pass,
        vtable: &Vt,
    ) -> Result<u64, RegistryFault>
        requires { belongs self.now pass.old }
        ensures pass { belongs self.now pass.new }
        ensures front { IsPrefix (front pass.old) (front pass.new) }
        ensures number { IfOk result (λ n. IsNumber (front pass.new) (Vt.listed_words vtable.now) n) }
        ensures inserts { IfOk result (inserts pass.old pass.new (Vt.listed_words vtable.now)) }
        ensures distinct { OnOk result (IsDistinct (front pass.new)) }
        ensures known { has (front pass.old) (Vt.listed_words vtable.now) ≡ true
            → OnOk result (looked pass.old pass.new) }
        ensures refused { IfErr result (refuses pass.old pass.new (Vt.listed_words vtable.now)) };
}

/// `Full` only where the table is absent and the stamp is 2^63 - 1; `RowFull` never.
impl<const SIZE: usize> VTableRegistry for VtBtree<SIZE> {
    type Pass = TreePass<SIZE>;

    ghost belongs = { λ registry p. IsPassOf registry p };

    ghost front = { λ p. front_of p };

    ghost looked = { λ p q. Looked p q };

    ghost inserts = { λ p q t n. InsertsTable p q t n };

    ghost refuses = { λ p q t fault. IsInsertFault p q t fault };

    fn insert<H: Wait>(
        &self,
        rt: &H,
        alloc: Global,
        pass: &mut TreePass<SIZE>,
        table: &WordTable,
    ) -> Result<u64, RegistryFault> {
        self.insert_gated(rt, alloc, pass, table, &OpenGate, 0, 0)
    }

    fn insert_typed<Vt: ListsWords, H: Wait>(
        &self,
        rt: &H,
        alloc: Global,
        pass: &mut TreePass<SIZE>,
        vtable: &Vt,
    ) -> Result<u64, RegistryFault> {
        let table = vtable.list_words(alloc)?;
        self.insert_gated(rt, alloc, pass, &table, &OpenGate, 0, 0)
    }
}
