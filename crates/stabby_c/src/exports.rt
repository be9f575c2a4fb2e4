//! What C may call. `examples/c/stabby.h`, at the top, declares each with its promise.

ghost use Rattle.std.specs.Prelude.{◌≡◌, ◌≢◌, ◌↔◌, length};
ghost use mathlib.Core.List.{IsPrefix};
ghost use Rattle.stabby_c.specs.Clients.{home_of, front_of, weight_of, TellsApart, IsForeign, JoinsClient, ReadsCount};
ghost use Rattle.stabby_c.specs.Handles.{IsAddress};
ghost use Rattle.stabby_c.specs.Answers.{SplitsHandle, TriedInsert, TriedAll, TriedEntry};

use crate::answer::Answer;
use crate::client::Client;
use crate::handle::{Handle, Loose, Opaque};
use std::alloc::Global;

// The address of a client that C holds from now on.
fn hand_out(client: Box<Client, Global>) -> *mut Opaque
    ensures { IsAddress result }
{
    Handle::address_of(Loose::of(client))
}

// The client that C held.
fn take_back(client: Handle) -> Client
    ensures { result ≡ client.value }
{
    Box::into_inner(client.into_loose().into_box())
}

// C holds the client as before.
fn let_be(client: Handle) {
    let _still_there = Handle::address_of(client.into_loose());
}

#[unsafe(no_mangle)]
pub extern "C" fn stabby_client_new(alloc: Global, number: u64, out: &mut *mut Opaque) -> u32
    ensures written { result ≡ 0 → IsAddress out.new }
    ensures unchanged { result ≢ 0 → (result ≡ 1) × (out.new ≡ out.old) }
{
    match Client::new(alloc, number) {
        Some(client) => {
            *out = hand_out(client);
            Answer::Done.code()
        }
        None => Answer::Memory.code(),
    }
}

#[unsafe(no_mangle)]
pub extern "C" fn stabby_client_split(
    alloc: Global,
    client: &mut Handle,
    weight: u64,
    out: &mut *mut Opaque,
) -> u32
    ensures same { home_of client.new.value ≡ home_of client.old.value }
    ensures front { IsPrefix (front_of client.old.value) (front_of client.new.value) }
    ensures split { SplitsHandle client.old.value client.new.value weight result }
    ensures written { result ≡ 0 → IsAddress out.new }
    ensures unchanged { result ≢ 0 → out.new ≡ out.old }
{
    match client.client().split(alloc, weight) {
        Ok(part) => {
            *out = hand_out(part);
            Answer::Done.code()
        }
        Err(answer) => answer.code(),
    }
}

#[unsafe(no_mangle)]
pub extern "C" fn stabby_client_join(client: &mut Handle, other: Handle) -> u32
    requires { TellsApart client.old.value other.value }
    ensures joined { result ≡ 0 → JoinsClient client.old.value other.value client.new.value }
    ensures foreign { (result ≡ 6) ↔ IsForeign client.old.value other.value }
    ensures unchanged { result ≢ 0 → (result ≡ 6) × (client.new.value ≡ client.old.value) }
{
    let mut other = other;
    if client.client().is_foreign(other.client()) {
        let_be(other);
        return Answer::Foreign.code();
    }
    client.client().join(take_back(other));
    Answer::Done.code()
}

#[unsafe(no_mangle)]
pub extern "C" fn stabby_client_free(client: Handle) {
    take_back(client);
}

#[unsafe(no_mangle)]
pub extern "C" fn stabby_client_weight(client: &mut Handle) -> u64
    ensures weight { result ≡ weight_of client.new.value }
    ensures unchanged { client.new.value ≡ client.old.value }
{
    client.client().weight()
}

#[unsafe(no_mangle)]
pub extern "C" fn stabby_client_count(client: &mut Handle) -> u64
    ensures same { home_of client.new.value ≡ home_of client.old.value }
    ensures count { result ≡ length (front_of client.new.value) }
    ensures looked { ReadsCount client.old.value client.new.value result }
    ensures front { IsPrefix (front_of client.old.value) (front_of client.new.value) }
{
    client.client().count()
}

#[unsafe(no_mangle)]
pub extern "C" fn stabby_client_try_insert(
    alloc: Global,
    client: &mut Handle,
    words: &[u64],
    number: &mut u64,
) -> u32
    ensures { TriedInsert client.old.value client.new.value words.now result number.old number.new }
{
    match client.client().try_insert(alloc, words) {
        Ok(found) => {
            *number = found;
            Answer::Done.code()
        }
        Err(fault) => Answer::from(fault).code(),
    }
}

#[unsafe(no_mangle)]
pub extern "C" fn stabby_client_try_insert_all(
    alloc: Global,
    client: &mut Handle,
    words: &[u64],
    lengths: &[usize],
    numbers: &mut [u64],
    done: &mut usize,
) -> u32
    ensures { TriedAll client.old.value client.new.value words.now lengths.now result numbers.old numbers.new done.new }
{
    let answer = client
        .client()
        .try_insert_all(alloc, words, lengths, numbers, done);
    answer.code()
}

#[unsafe(no_mangle)]
pub extern "C" fn stabby_client_try_entry(
    client: &mut Handle,
    number: u64,
    words: &mut [u64],
    length: &mut usize,
) -> u32
    ensures { TriedEntry client.old.value client.new.value number result words.old words.new length.old length.new }
{
    match client.client().try_entry(number, words) {
        Ok(Some(found)) => {
            *length = found;
            Answer::Done.code()
        }
        Ok(None) => Answer::Absent.code(),
        Err(fault) => Answer::from(fault).code(),
    }
}
