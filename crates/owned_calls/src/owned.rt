//! The container that is called now, where it has one owner.
use crate::calls::{Answer, Call};
use crate::lists::call_list;
use crate::sets::{Map, Set, call_map, call_set, new_maps, new_sets};
use crate::singles::{call_boxed, call_single};
use crate::texts::call_text;
use stabby_text::String;
use stabby_vec::{BoxedSlice, SingleOrVec, Vec as List};
use std::alloc::Global;

/// A list, a text, or four sets or maps.
#[derive(Drop)]
pub enum Owned {
    List(List<u64, Global>),
    Single(SingleOrVec<u64, Global>),
    Boxed(BoxedSlice<u64, Global>),
    Text(String<Global>),
    Trees(Trees),
}

/// Sets that keep, sets that replace, and maps, at the limits 3, 5 and 33.
#[derive(Drop)]
pub enum Trees {
    Keeping3(Vec<Set<0, 3>>),
    Keeping5(Vec<Set<0, 5>>),
    Keeping33(Vec<Set<0, 33>>),
    Replacing3(Vec<Set<1, 3>>),
    Replacing5(Vec<Set<1, 5>>),
    Replacing33(Vec<Set<1, 33>>),
    Map3(Vec<Map<3>>),
    Map5(Vec<Map<5>>),
    Map33(Vec<Map<33>>),
}

fn new_trees(alloc: Global, name: &str) -> Option<Trees> {
    match name {
        "set3" => Some(Trees::Keeping3(new_sets(alloc).ok()?)),
        "set5" => Some(Trees::Keeping5(new_sets(alloc).ok()?)),
        "set33" => Some(Trees::Keeping33(new_sets(alloc).ok()?)),
        "replacing3" => Some(Trees::Replacing3(new_sets(alloc).ok()?)),
        "replacing5" => Some(Trees::Replacing5(new_sets(alloc).ok()?)),
        "replacing33" => Some(Trees::Replacing33(new_sets(alloc).ok()?)),
        "map3" => Some(Trees::Map3(new_maps(alloc).ok()?)),
        "map5" => Some(Trees::Map5(new_maps(alloc).ok()?)),
        "map33" => Some(Trees::Map33(new_maps(alloc).ok()?)),
        _ => None,
    }
}

impl Owned {
    /// A new container of this name, where there is one, and memory for it.
    pub fn new(alloc: Global, name: &str) -> Option<Owned> {
        match name {
            "list" => Some(Owned::List(List::new_in(alloc))),
            "single" => Some(Owned::Single(SingleOrVec::new_in(alloc))),
            "boxed" => Some(Owned::Boxed(BoxedSlice::from_vec(List::new_in(alloc)))),
            "text" => Some(Owned::Text(String::new_in(alloc))),
            _ => Some(Owned::Trees(new_trees(alloc, name)?)),
        }
    }
}

fn call_trees(alloc: Global, trees: &mut Trees, call: &Call) -> Answer {
    match trees {
        Trees::Keeping3(sets) => call_set(alloc, sets, call),
        Trees::Keeping5(sets) => call_set(alloc, sets, call),
        Trees::Keeping33(sets) => call_set(alloc, sets, call),
        Trees::Replacing3(sets) => call_set(alloc, sets, call),
        Trees::Replacing5(sets) => call_set(alloc, sets, call),
        Trees::Replacing33(sets) => call_set(alloc, sets, call),
        Trees::Map3(maps) => call_map(alloc, maps, call),
        Trees::Map5(maps) => call_map(alloc, maps, call),
        Trees::Map33(maps) => call_map(alloc, maps, call),
    }
}

/// What the container answers to a call.
pub fn call_owned(alloc: Global, owned: &mut Owned, call: &Call) -> Answer {
    match owned {
        Owned::List(list) => call_list(alloc, list, call),
        Owned::Single(list) => call_single(alloc, list, call),
        Owned::Boxed(slice) => call_boxed(alloc, slice, call),
        Owned::Text(text) => call_text(alloc, text, call),
        Owned::Trees(trees) => call_trees(alloc, trees, call),
    }
}
