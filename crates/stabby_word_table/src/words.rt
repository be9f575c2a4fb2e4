//! Lists of words, of which up to three stand in the value itself.

ghost use Rattle.std.specs.Prelude.{◌≡◌, IfOk, slice_index};
ghost use Rattle.stabby_word_table.specs.Words.{words_in};

use std::alloc::{AllocError, Global};
use std::slice;

// A list of words. One of up to three takes no block.
#[derive(Drop)]
pub(crate) enum Words {
    Empty,
    One(u64),
    Two([u64; 2]),
    Three([u64; 3]),
    Many(Vec<u64>),
}

impl Words {
    // A list of these words.
    pub(crate) fn from_slice(alloc: Global, words: &[u64]) -> Result<Words, AllocError>
        ensures { IfOk result (λ made. words_in made ≡ words.now) }
    {
        if words.len() == 0 {
            return Ok(Words::Empty);
        }
        if words.len() == 1 {
            return Ok(Words::One(words[0]));
        }
        if words.len() == 2 {
            return Ok(Words::Two([words[0], words[1]]));
        }
        if words.len() == 3 {
            return Ok(Words::Three([words[0], words[1], words[2]]));
        }
        Ok(Words::Many(words.to_vec(alloc)?))
    }

    // The list of these words, which keeps the block of a list of four or more.
    pub(crate) fn from_vec(words: Vec<u64>) -> Words
        ensures { words_in result ≡ words.items }
    {
        if words.len() == 0 {
            return Words::Empty;
        }
        if words.len() == 1 {
            return Words::One(words[0]);
        }
        if words.len() == 2 {
            return Words::Two([words[0], words[1]]);
        }
        if words.len() == 3 {
            return Words::Three([words[0], words[1], words[2]]);
        }
        Words::Many(words)
    }

    // An equal list.
    pub(crate) fn copy(&self) -> Result<Words, AllocError>
        ensures { IfOk result (λ copy. words_in copy ≡ words_in self.now) }
    {
        match self {
            Words::Empty => Ok(Words::Empty),
            Words::One(a) => Ok(Words::One(*a)),
            Words::Two(a) => Ok(Words::Two(*a)),
            Words::Three(a) => Ok(Words::Three(*a)),
            Words::Many(words) => Ok(Words::Many(words.clone()?)),
        }
    }

    // The words in order.
    #[inline(always)]
    pub(crate) fn as_slice(&self) -> &[u64]
        ensures { result.now ≡ words_in self.now }
    {
        match self {
            Words::Empty => &[],
            Words::One(a) => slice::from_ref(a),
            Words::Two(a) => a,
            Words::Three(a) => a,
            Words::Many(words) => words,
        }
    }

    // The first word, or 0: most comparisons end with it.
    #[inline(always)]
    pub(crate) fn first(&self) -> u64
        ensures { result ≡ slice_index (words_in self.now) 0 }
    {
        match self {
            Words::Empty => 0,
            Words::One(a) => *a,
            Words::Two(a) => a[0],
            Words::Three(a) => a[0],
            Words::Many(words) => { if words.is_empty() { 0 } else { words[0] } }
        }
    }
}
