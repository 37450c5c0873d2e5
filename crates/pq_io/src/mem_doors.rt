// Doors in memory, for tests: the links that they give, and which of their calls fail, are chosen beforehand.
ghost use Rattle.std.specs.Prelude.{◌≡◌, ◌↔◌, ◌++◌, ◌∷◌, [], map, string_bytes, option_copied, option_map, Some, IfOk, IfSome, IsErr, Contains, OnErr, OnOk, is_err};
ghost use Rattle.pq_io.specs.CallLog.{NextIsListed, after_call, after_opening, no_calls};
ghost use Rattle.pq_io.specs.Doors.{GivesNextLink, OpenedAt, lists_of, opened_of};
ghost use Rattle.pq_io.specs.Faults.{HasCause};

use crate::call_log::Calls;
use crate::{Doors, Failed, Link};
use out_of_memory::OutOfMemory;
use std::alloc::Global;
use std::collections::VecDeque;
use std::marker::Model;

/// Doors that give the links that they were made with, and then close. Contracts see them as a `DoorsState`.
#[derive(Drop)]
pub struct MemDoors<K: Link> {
    links: VecDeque<K>,
    calls: Calls,
    returned: Option<Vec<Vec<K::Receipt>>>,
    /// The addresses at which they were opened, in order. None once no memory was found to keep one.
    opened: Option<Vec<String>>,
}

impl<K: Link> Model for MemDoors<K> {
    ghost use Rattle.pq_io.specs.Doors.{DoorsState, opened_of, returned_of};

    ghost Value = { DoorsState K K.Receipt };

    ghost view = { λ d. record { links = d.links.items; log = d.calls; returned = returned_of d.returned; opened = opened_of d.opened } };
}

/// Adds an address behind the others.
fn add_address(
    alloc: Global,
    mut all: Vec<String>,
    address: &str,
) -> Result<Vec<String>, OutOfMemory>
    ensures { IfOk result (λ more. map string_bytes more.items ≡ map string_bytes all.items ++ address.now ∷ []) }
{
    let text = String::from_str(alloc, address)?;
    all.push(text)?;
    Ok(all)
}

/// The addresses as doors keep them once they are opened at one more. None where no memory is found for it, or was not found
/// before.
fn keep_address(alloc: Global, opened: Option<Vec<String>>, address: &str) -> Option<Vec<String>>
    ensures { OpenedAt (opened_of opened) (opened_of result) address.now }
{
    let Some(known) = opened else {
        return None;
    };
    match add_address(alloc, known, address) {
        Ok(all) => Some(all),
        Err(_) => None,
    }
}

impl<K: Link> MemDoors<K> {
    /// Doors that give these links in order. A call of `next` fails exactly where its number, counted from 1, is in `fails`,
    /// and `open_at` exactly where 0 is.
    pub fn new(links: Vec<K>, fails: Vec<usize>) -> MemDoors<K>
        ensures { result ≡ record { links = links.items; log = no_calls fails.items; returned = []; opened = Some [] } }
    {
        let alloc = *links.allocator();
        MemDoors {
            links: VecDeque::from(links),
            calls: Calls::new(fails),
            returned: None,
            opened: Some(Vec::new(alloc)),
        }
    }

    /// The receipts that came back last, a list of each who served links.
    pub fn returned(&self) -> &[Vec<K::Receipt>]
        ensures { lists_of result.now ≡ self.now.returned }
    {
        match &self.returned {
            Some(lists) => lists.as_slice(),
            None => &[],
        }
    }

    /// The addresses at which they were opened, in order. None once no memory was found to keep one.
    pub fn opened(&self) -> Option<&[String]>
        ensures { option_map (map string_bytes) (option_copied result) ≡ self.now.opened }
    {
        match &self.opened {
            Some(all) => Some(all.as_slice()),
            None => None,
        }
    }
}

impl<K: Link + Send + Drop> Doors for MemDoors<K> {
    type Wire = K;

    ghost held = { λ d. Some d.links };

    ghost returned = { λ d. Some d.returned };

    ghost opened = { λ d. d.opened };

    ghost faults = { λ d. d.log.faults };

    /// Keeps a copy of the address. Where no memory is found for it, they do not tell any more at which addresses they were opened.
    /// Takes a step for each number in `fails` and each byte of the address.
    fn open_at(&mut self, address: &str) -> Result<(), Failed>
        ensures cause { HasCause self.old.log.faults self.new.log.faults result }
        ensures opened { OnOk result (OpenedAt self.old.opened self.new.opened address.now) }
        ensures same_opened { OnErr result (self.new.opened ≡ self.old.opened) }
        ensures same_held { Some self.new.links ≡ Some self.old.links }
        ensures listed { IsErr result ↔ Contains self.old.log.fails 0 }
        ensures logged { self.new.log ≡ after_opening self.old.log (is_err result) }
    {
        self.calls.open()?;
        let alloc = *self.links.allocator();
        let opened = self.opened.take();
        self.opened = keep_address(alloc, opened, address);
        Ok(())
    }

    /// Takes a step for each number in `fails`.
    fn next(&mut self) -> Result<Option<K>, Failed>
        ensures links { GivesNextLink (Some self.old.links) (Some self.new.links) result }
        ensures cause { HasCause self.old.log.faults self.new.log.faults result }
        ensures same_opened { self.new.opened ≡ self.old.opened }
        ensures listed { IsErr result ↔ NextIsListed self.old.log }
        ensures logged { self.new.log ≡ after_call self.old.log (is_err result) }
    {
        self.calls.next()?;
        Ok(self.links.pop_front())
    }

    /// Keeps them in the place of those that came back before.
    fn take_back(&mut self, receipts: Vec<Vec<K::Receipt>>)
        ensures returned { IfSome (Some self.new.returned) (λ lists. lists ≡ lists_of receipts.items) }
        ensures same_held { Some self.new.links ≡ Some self.old.links }
        ensures same_opened { self.new.opened ≡ self.old.opened }
        ensures same_faults { self.new.log.faults ≡ self.old.log.faults }
        ensures same_log { self.new.log ≡ self.old.log }
    {
        self.returned = Some(receipts);
    }
}
