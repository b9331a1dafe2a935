// Hosts by name.
ghost use Rattle.std.specs.Prelude.{◌≡◌, ◌++◌, [], ◌∷◌, None, length, OnOk, OnErr};
ghost use Rattle.ibos_origin.specs.Hosts.{address_of};

use ibos_kinds::Memory;
use ibos_text::TextHasher;
use indexmap::IndexMap;
use std::alloc::Global;
use std::hash::BuildHasherDefault;
use std::marker::Model;

/// Hosts with their addresses, each name once, in the order in which they came. A name is found by
/// its hash.
#[derive(Debug, Drop)]
pub struct HostIndex {
    addrs: IndexMap<Vec<u8>, u32, BuildHasherDefault<TextHasher>>,
}

impl Model for HostIndex {
    ghost use Rattle.std.specs.Prelude.{List};
    ghost use Rattle.ibos_origin.specs.Hosts.{Host};

    ghost Value = { List Host };

    ghost use Rattle.ibos_origin.specs.Index.{named_hosts};

    ghost view = { λ index. named_hosts index.addrs.entries };
}

impl HostIndex {
    /// No hosts. Takes no memory.
    pub fn new(alloc: Global) -> HostIndex
        ensures { result ≡ [] }
    {
        HostIndex {
            addrs: IndexMap::with_hasher(alloc, BuildHasherDefault::new()),
        }
    }

    /// How many hosts there are.
    pub fn len(&self) -> usize
        ensures { result ≡ length self.now }
    {
        self.addrs.len()
    }

    /// The address of the host of that name.
    pub fn address(&self, name: &[u8]) -> Option<u32>
        ensures { result ≡ address_of self.now name.now }
    {
        self.addrs.get(name).copied()
    }

    ghost use Rattle.ibos_origin.specs.Hosts.{host_of};

    /// Adds a host whose name isn't there.
    pub fn push(&mut self, alloc: Global, name: &[u8], addr: u32) -> Result<(), Memory>
        requires { address_of self.old name.now ≡ None }
        ensures ok { OnOk result (self.new ≡ self.old ++ host_of name.now addr ∷ []) }
        ensures err { OnErr result (self.new ≡ self.old) }
    {
        self.addrs.insert(Vec::from_slice(alloc, name)?, addr)?;
        Ok(())
    }
}
