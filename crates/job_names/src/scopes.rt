//! The lets that are shown, while a reader goes through a text.
ghost use Rattle.std.specs.Prelude.{◌≡◌, ℕ, ◌+◌, ◌-◌, ◌≤◌, ◌<◌, ◌++◌, [], ◌∷◌, None, if◌then◌else◌, length, take, drop, OnOk};
ghost use Rattle.job_names.specs.Scopes.{job, inside, is_par, last_of, lets_shown, with_lets, closed};
ghost use Rattle.job_names.specs.Code.Kept.{ArePlaced, IsKept, view};
ghost use Rattle.job_names.specs.Code.Places.{places_from};

use crate::kind::Kind;
use crate::name::Name;
use crate::places::{Places, count_below};
use std::alloc::{AllocError, Global};

/// A let: its name, and the number that its reader gave it.
#[derive(Clone, Copy)]
pub struct Let {
    pub name: Name,
    pub number: u32,
}

/// An open block, and how many lets that are not gone stand before it.
#[derive(Clone, Copy)]
pub struct Start {
    pub kind: Kind,
    pub first: usize,
}

/// The lets that are not gone, in text order, the places of each name among them, and the open blocks. After an error
/// of memory nothing is said of it.
#[derive(Drop)]
pub struct Scopes {
    lets: Vec<Let>,
    places: Places,
    blocks: Vec<Start>,
}

impl Scopes {
    /// The scope at the front of a job.
    pub fn new(alloc: Global) -> Scopes
        ensures kept { IsKept result }
        ensures view { view result ≡ job [] }
    {
        Scopes {
            lets: Vec::new(alloc),
            places: Places::new(alloc),
            blocks: Vec::new(alloc),
        }
    }

    /// Opens a block.
    pub fn open(&mut self, kind: Kind) -> Result<(), AllocError>
        requires { IsKept self.old }
        ensures kept { OnOk result (IsKept self.new) }
        ensures view { OnOk result (view self.new ≡ inside (view self.old) kind []) }
    {
        let first = self.lets.len();
        self.blocks.push(Start { kind, first })?;
        Ok(())
    }

    /// Drops the last let.
    fn forget_last(&mut self)
        requires placed { ArePlaced self.old }
        requires some { 0 < length self.old.lets.items }
        ensures placed { ArePlaced self.new }
        ensures lets { self.new.lets.items ≡ take (length self.old.lets.items - 1) self.old.lets.items }
        ensures blocks { self.new.blocks ≡ self.old.blocks }
    {
        if let Some(last) = self.lets.pop() {
            self.places.pop(last.name);
        }
    }

    /// Drops the lets from a place on.
    fn forget(&mut self, first: usize)
        requires placed { ArePlaced self.old }
        requires within { first ≤ length self.old.lets.items }
        ensures placed { ArePlaced self.new }
        ensures lets { self.new.lets.items ≡ take first self.old.lets.items }
        ensures blocks { self.new.blocks ≡ self.old.blocks }
    {
        for _ in first..self.lets.len() {
            self.forget_last();
        }
    }

    /// Closes the innermost block, if one is open.
    pub fn close(&mut self)
        requires { IsKept self.old }
        ensures kept { IsKept self.new }
        ensures view { view self.new ≡ closed (view self.old) }
    {
        if let Some(block) = self.blocks.pop() {
            if block.kind.is_loop() {
                self.forget(block.first);
            }
        }
    }

    /// Adds a let to the innermost block.
    pub fn bind(&mut self, name: Name, number: u32) -> Result<(), AllocError>
        requires { IsKept self.old }
        ensures kept { OnOk result (IsKept self.new) }
        ensures view { OnOk result
            (view self.new ≡ with_lets (view self.old) (record { name = name; number = number } ∷ [])) }
    {
        let place = self.lets.len();
        self.lets.push(Let { name, number })?;
        self.places.push(name, place)?;
        Ok(())
    }

    /// The number of the last let with a name, among those from one place to before another.
    fn last_in(&self, name: Name, places: &[usize], start: usize, end: usize) -> Option<u32>
        requires places { places.now ≡ places_from name 0 self.now.lets.items }
        requires order { start ≤ end }
        requires within { end ≤ length self.now.lets.items }
        ensures { result ≡ last_of name (drop start (take end self.now.lets.items)) }
    {
        let count = count_below(places, end);
        if count == 0 {
            return None;
        }
        let place = places[count - 1];
        if place < start {
            return None;
        }
        Some(self.lets[place].number)
    }

    /// The number of the last let with a name in a block, among those before a place. None in a par.
    fn last_in_block(&self, name: Name, places: &[usize], block: Start, end: usize) -> Option<u32>
        requires places { places.now ≡ places_from name 0 self.now.lets.items }
        requires order { block.first ≤ end }
        requires within { end ≤ length self.now.lets.items }
        ensures { result
            ≡ (if is_par block.kind then None else last_of name (drop block.first (take end self.now.lets.items))) }
    {
        if block.kind.is_par() {
            return None;
        }
        self.last_in(name, places, block.first, end)
    }

    /// The number of the let that a use of a name means: the last let of the name that is shown.
    pub fn look(&self, name: Name) -> Option<u32>
        requires { IsKept self.now }
        ensures { result ≡ last_of name (lets_shown (view self.now)) }
    {
        let places = self.places.of(name);
        let open = self.blocks.len();
        let mut end = self.lets.len();
        for i in 0..open {
            let block = self.blocks[open - 1 - i];
            if let Some(number) = self.last_in_block(name, places, block, end) {
                return Some(number);
            }
            end = block.first;
        }
        self.last_in(name, places, 0, end)
    }
}
