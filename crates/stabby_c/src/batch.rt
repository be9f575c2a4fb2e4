//! Inserting many tables by one call.

ghost use Rattle.std.specs.Prelude.{◌≡◌, ◌≢◌, ◌<◌, ◌↔◌, length, IsTrue};
ghost use Rattle.std.specs.List.{sum};
ghost use mathlib.Core.List.{IsPrefix};
ghost use Rattle.stabby_c.specs.declared.answer.Answer.TheVariants.{Done, Malformed};

use crate::answer::Answer;
use crate::client::Client;
use std::alloc::Global;

// Whether the lengths add up to so many words.
fn add_up(lengths: &[usize], words: usize) -> bool
    ensures { IsTrue result ↔ (sum lengths.now ≡ words) }
{
    let mut left = words;
    for length in lengths {
        if left < *length {
            return false;
        }
        left -= *length;
    }
    left == 0
}

impl Client {
    ghost use Rattle.stabby_c.specs.Clients.{home_of, front_of, TriedEach};
    ghost use Rattle.stabby_c.specs.Batches.{IsMalformed, table_at, AreNumbered, StoppedAt};

    /// The numbers of many tables, by one try for each, in order. The words of the tables lie behind one another.
    ///
    /// It stops at the first table that is refused, with that table's answer. `done` is how many tables have their
    /// numbers, so a caller may go on from there. `Malformed`, with nothing done, exactly where the lengths don't add up
    /// to the words, or there are fewer places for numbers than tables.
    pub fn try_insert_all(
        &mut self,
        alloc: Global,
        words: &[u64],
        lengths: &[usize],
        numbers: &mut [u64],
        done: &mut usize,
    ) -> Answer
        ensures same { home_of self.new ≡ home_of self.old }
        ensures front { IsPrefix (front_of self.old) (front_of self.new) }
        ensures malformed { (result ≡ Malformed) ↔ IsMalformed words.now lengths.now numbers.old }
        ensures unchanged { result ≡ Malformed → (self.new ≡ self.old) × (done.new ≡ 0) × (numbers.new ≡ numbers.old) }
        ensures numbers { AreNumbered (front_of self.new) words.now lengths.now numbers.new done.new }
        ensures all { result ≡ Done → (done.new ≡ length lengths.now) × TriedEach self.old done.new self.new }
        ensures stopped { result ≢ Done → result ≢ Malformed → (done.new < length lengths.now)
            × StoppedAt self.old self.new done.new (table_at words.now lengths.now done.new) result }
    {
        *done = 0;
        if numbers.len() < lengths.len() || !add_up(lengths, words.len()) {
            return Answer::Malformed;
        }
        let mut from = 0;
        for (at, length) in lengths.iter().enumerate() {
            let to = from + *length;
            match self.try_insert(alloc, &words[from..to]) {
                Ok(number) => numbers[at] = number,
                Err(fault) => return Answer::from(fault),
            }
            from = to;
            *done = at + 1;
        }
        Answer::Done
    }
}
