// The versions of one key.
ghost use Rattle.std.specs.Prelude.{◌≡◌, ◌<◌, [], ◌∷◌, ◌++◌, OnOk, OnErr, false, length, option_copied, true};
ghost use Rattle.base_versions.specs.Versions.{AscendFrom, TrimsTo, has_between, value_in};

use crate::older::OlderVersions;
use key_space::Value;
use out_of_memory::OutOfMemory;
use std::alloc::Global;
use std::marker::Model;

/// What a key was given at a position: a value, or none where it was removed.
#[derive(Debug, Drop)]
pub struct Version {
    pub position: u64,
    pub value: Option<Value>,
}

/// The versions of one key, in order of position. The newest stands beside the queue of the older ones: it answers most
/// questions, and a key that was written once needs no queue.
#[derive(Debug, Drop)]
pub struct Versions {
    older: OlderVersions,
    newest: Option<Version>,
}

impl Model for Versions {
    ghost use Rattle.std.specs.Prelude.{List};
    ghost use Rattle.base_versions.specs.declared.versions.Version.{Version};
    ghost use Rattle.base_versions.specs.Versions.{with_newest};

    ghost Value = { List Version };

    ghost view = { λ v. with_newest v.older v.newest };
}

impl Versions {
    /// No versions yet. Nothing is allocated.
    pub fn new(alloc: Global) -> Versions
        ensures { result ≡ [] }
    {
        Versions {
            older: OlderVersions::new(alloc),
            newest: None,
        }
    }

    /// One version more, the last. On `OutOfMemory` there is none more.
    pub fn push(&mut self, version: Version) -> Result<(), OutOfMemory>
        ensures ok { OnOk result (self.new ≡ self.old ++ version ∷ []) }
        ensures err { OnErr result (self.new ≡ self.old) }
    {
        if let Some(before) = self.newest.take()
            && let Err(refused) = self.older.push(before)
        {
            let (memory, before) = OutOfMemory::split(refused);
            self.newest = Some(before);
            return Err(memory);
        }
        self.newest = Some(version);
        Ok(())
    }

    /// What stands at the key after p entries. The older versions are searched by halves where the newest is later.
    pub fn value_at(&self, p: u64) -> Option<&Value>
        ensures { AscendFrom 0 self.now → option_copied result ≡ value_in p self.now }
    {
        match &self.newest {
            Some(newest) if newest.position <= p => newest.value.as_ref(),
            _ => self.older.value_at(p),
        }
    }

    /// Whether there is a version after the first q entries, up to the p-th. The older versions are searched by halves where
    /// the newest is later.
    pub fn has_between(&self, q: u64, p: u64) -> bool
        ensures { AscendFrom 0 self.now → result ≡ has_between q p self.now }
    {
        match &self.newest {
            Some(newest) if newest.position <= p => q < newest.position,
            _ => self.older.has_between(q, p),
        }
    }

    /// Whether nobody asks for any of the versions who asks from a position on: the newest is a removal, and not after it.
    fn is_spent(&self, to: u64) -> bool
        ensures { result ≡ true → AscendFrom 0 self.now → TrimsTo to self.now [] }
    {
        match &self.newest {
            Some(newest) if newest.position <= to => newest.value.is_none(),
            _ => false,
        }
    }

    /// Takes older versions out that nobody asks for who asks from a position on: all of them where the newest is not after it.
    /// Otherwise it takes the first one out, where the second is not after it.
    fn trim_older(&mut self, to: u64)
        ensures { AscendFrom 0 self.old → TrimsTo to self.old self.new }
    {
        match &self.newest {
            Some(newest) if newest.position <= to => self.older.clear(),
            _ => self.older.trim(to),
        }
    }

    /// Takes versions out that nobody asks for who asks from a position on: all of them where the newest is not after it and is a
    /// removal, and all but the newest where it is a value. Otherwise it takes the first one out, where the second is not after it.
    /// So a call for each version that is not after the position leaves one of these, or none.
    pub fn trim(&mut self, to: u64)
        ensures { AscendFrom 0 self.old → TrimsTo to self.old self.new }
    {
        if self.is_spent(to) {
            self.older.clear();
            self.newest = None;
            return;
        }
        self.trim_older(to);
    }

    /// Whether there are none.
    pub fn is_empty(&self) -> bool
        ensures none { result ≡ true → self.now ≡ [] }
        ensures some { result ≡ false → 0 < length self.now }
    {
        self.newest.is_none() && self.older.is_empty()
    }
}
