//! Which of this side's handles each of the peer's handles means.

ghost use Rattle.std.specs.Prelude.{◌≡◌, OnOk, OnErr};
ghost use Rattle.std.specs.FinMap as map;
ghost use Rattle.amqp_memory.specs.Refusal.{SomeRefused};

use amqp_memory::put_full_in_map;
use amqp_session::keys::{self, Hints, KeyHash, Numbered};
use indexmap::IndexMap;
use std::alloc::{AllocError, Global};
use std::marker::Model;

/// This side's handles of links, by those of the peer, from the peer's Attach to its Detach.
#[derive(Drop)]
pub(crate) struct Inputs {
    handles: Numbered<u32>,
    hints: Hints,
}

impl Model for Inputs {
    ghost use Rattle.std.specs.Coded.{codes};
    ghost use Rattle.std.specs.FinMap as map;
    ghost use Rattle.amqp_endpoints.specs.Endpoint.{InputTable, input_table_code};

    ghost Value = { InputTable };

    ghost coded = { Prim.hlevel (codes, input_table_code) };

    ghost view = { λ t. map.from_entries t.handles.entries };
}

impl Inputs {
    /// No handle of the peer's means any. Handles are found by this hash.
    pub(crate) fn new(alloc: Global, hash: KeyHash) -> Inputs
        ensures { result ≡ map.empty }
    {
        Inputs {
            handles: IndexMap::with_hasher(alloc, hash),
            hints: Hints::new(),
        }
    }

    /// This side's handle of the link that the peer has under this handle.
    pub(crate) fn of(&self, input: u32) -> Option<u32>
        ensures { result ≡ map.get self.now input }
    {
        keys::get(&self.handles, &self.hints, input).copied()
    }

    /// From now on the peer's handle means this one. Nothing changes where memory is refused.
    pub(crate) fn put(&mut self, input: u32, handle: u32) -> Result<(), AllocError>
        ensures ok { OnOk result (self.new ≡ map.insert self.old input handle) }
        ensures err { OnErr result (self.new ≡ self.old) }
        ensures refused { OnErr result SomeRefused }
    {
        let (index, _) = put_full_in_map(&mut self.handles, input, handle)?;
        self.hints.note(input, index);
        Ok(())
    }

    /// From now on the peer's handle means none.
    pub(crate) fn forget(&mut self, input: u32)
        ensures { self.new ≡ map.remove self.old input }
    {
        keys::take(&mut self.handles, &mut self.hints, input);
    }
}
