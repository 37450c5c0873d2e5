// The versions of one key but its newest.
ghost use Rattle.std.specs.Prelude.{◌≡◌, ◌<◌, [], ◌∷◌, ◌++◌, IfErr, OnOk, OnErr, false, length, option_copied, true};
ghost use Rattle.base_versions.specs.Versions.{AscendFrom, IsTrimmed, has_between, value_in};

use crate::room::let_room_go;
use crate::versions::Version;
use key_space::Value;
use std::alloc::{AllocFailed, Global};
use std::collections::VecDeque;
use std::marker::Model;

/// The versions of one key but its newest, in order of position: new ones come last, and trimming takes the first ones out.
#[derive(Debug, Drop)]
pub(crate) struct OlderVersions {
    queue: VecDeque<Version>,
}

impl Model for OlderVersions {
    ghost use Rattle.std.specs.Prelude.{List};
    ghost use Rattle.base_versions.specs.declared.versions.Version.{Version};

    ghost Value = { List Version };

    ghost view = { λ v. v.queue.items };
}

impl OlderVersions {
    /// No versions yet. Nothing is allocated.
    pub fn new(alloc: Global) -> OlderVersions
        ensures { result ≡ [] }
    {
        OlderVersions {
            queue: VecDeque::new(alloc),
        }
    }

    /// One version more, the last. Where no memory is found there is none more, and the version is given back.
    pub fn push(&mut self, version: Version) -> Result<(), AllocFailed<Version>>
        ensures ok { OnOk result (self.new ≡ self.old ++ version ∷ []) }
        ensures err { OnErr result (self.new ≡ self.old) }
        ensures back { IfErr result (λ refused. refused.value ≡ version) }
    {
        self.queue.push_back(version)
    }

    /// What stands at the key after p entries. The versions are searched by halves.
    pub fn value_at(&self, p: u64) -> Option<&Value>
        ensures { AscendFrom 0 self.now → option_copied result ≡ value_in p self.now }
    {
        let count = self.queue.partition_point(|version| version.position <= p);
        if count == 0 {
            return None;
        }
        match self.queue.get(count - 1) {
            None => None,
            Some(version) => version.value.as_ref(),
        }
    }

    /// Whether there is a version after the first q entries, up to the p-th. The versions are searched by halves.
    pub fn has_between(&self, q: u64, p: u64) -> bool
        ensures { AscendFrom 0 self.now → result ≡ has_between q p self.now }
    {
        let count = self.queue.partition_point(|version| version.position <= q);
        match self.queue.get(count) {
            None => false,
            Some(version) => version.position <= p,
        }
    }

    /// Takes the first version out, where the second is not after a position: nobody asks for it who asks from there on. Room that
    /// is not needed goes.
    pub fn trim(&mut self, to: u64)
        ensures { AscendFrom 0 self.old → IsTrimmed to self.old self.new }
    {
        match self.queue.get(1) {
            Some(second) if second.position <= to => {
                self.queue.pop_front();
                let_room_go(&mut self.queue);
            }
            _ => {}
        }
    }

    /// Whether there are none.
    pub fn is_empty(&self) -> bool
        ensures none { result ≡ true → self.now ≡ [] }
        ensures some { result ≡ false → 0 < length self.now }
    {
        self.queue.is_empty()
    }

    /// Takes them all out, and lets go of the room for them: else each key that was ever written often would keep it.
    pub fn clear(&mut self)
        ensures { self.new ≡ [] }
    {
        self.queue.clear();
        self.queue.shrink_to_fit();
    }
}
