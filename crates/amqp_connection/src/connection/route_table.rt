//! RouteTable: where frames on a channel of the peer's go.

ghost use Rattle.std.specs.Prelude.{◌≡◌, Some, OnOk, OnErr};
ghost use Rattle.std.specs.FinMap as map;
ghost use Rattle.amqp_memory.specs.Refusal.{SomeRefused};
ghost use Rattle.amqp_connection.specs.Channels.{no_routes};
ghost use Rattle.amqp_connection.specs.RouteCounts.{IsLedTo};

use super::route_counts;
use amqp_memory::{more_in_map, put_full_in_map};
use amqp_session::IncomingChannel;
use amqp_session::keys::{self, Hints, KeyHash, Numbered};
use indexmap::IndexMap;
use std::alloc::{AllocError, Global};
use std::marker::Model;

/// The sessions that received frames go to, by their channels.
#[derive(Drop)]
pub(crate) struct RouteTable {
    routes: Numbered<u32>,
    hints: Hints,
    /// How many channels lead to each session, for the sessions to which any leads.
    counts: Numbered<u32>,
    count_hints: Hints,
}

impl Model for RouteTable {
    ghost use Rattle.std.specs.Prelude.{◌≡◌};
    ghost use Rattle.std.specs.Coded.{codes};
    ghost use Rattle.std.specs.FinMap as map;
    ghost use Rattle.indexmap.specs.IndexMap.{hasher_of};
    ghost use Rattle.amqp_session.specs.Hashing.{hash_code};
    ghost use Rattle.amqp_connection.specs.Channels.{RoutesView, channel_table_code};
    ghost use Rattle.amqp_connection.specs.RouteCounts.{Counted};

    ghost Value = { RoutesView };

    ghost coded = { Prim.hlevel (codes, channel_table_code, hash_code) };

    ghost view = { λ t. record { hash = hasher_of t.routes; routes = map.from_entries t.routes.entries } };

    ghost invariant = { λ t. Counted (map.from_entries t.routes.entries) t.counts.entries × (hasher_of t.counts ≡ hasher_of t.routes) };
}

impl RouteTable {
    /// No channel leads anywhere. Channels are found by this hash.
    pub(crate) fn new(alloc: Global, hash: KeyHash) -> RouteTable
        ensures { result ≡ no_routes hash }
    {
        RouteTable {
            routes: IndexMap::with_hasher(alloc, hash),
            hints: Hints::new(),
            counts: IndexMap::with_hasher(alloc, hash),
            count_hints: Hints::new(),
        }
    }

    /// The session to which frames on the channel go.
    #[inline(always)]
    pub(crate) fn of(&self, channel: IncomingChannel) -> Option<u32>
        ensures { result ≡ map.get self.now.routes channel.0 }
    {
        let at = keys::index_of(&self.routes, &self.hints, u32::from(channel.0))?;
        let (_, number) = self.routes.get_index(at)?;
        Some(*number)
    }

    /// Whether some channel leads to the session.
    pub(crate) fn leads_to(&self, number: u32) -> bool
        ensures { IsLedTo self.now.routes number result }
    {
        keys::get(&self.counts, &self.count_hints, number).is_some()
    }

    /// From now on the channel leads to this session.
    pub(crate) fn put(&mut self, channel: IncomingChannel, number: u32) -> Result<(), AllocError>
        ensures ok { OnOk result (self.new ≡ record self.old { routes = map.insert self.old.routes channel.0 number }) }
        ensures err { OnErr result (self.new ≡ self.old) }
        ensures elsewhere { OnErr result (¬ (map.get self.old.routes channel.0 ≡ Some number)) }
        ensures refused { OnErr result SomeRefused }
    {
        if self.of(channel) == Some(number) {
            return Ok(());
        }
        // Then no count needs memory once the route is put.
        more_in_map(&mut self.counts, 1)?;
        let key = u32::from(channel.0);
        let (index, before) = put_full_in_map(&mut self.routes, key, number)?;
        self.hints.note(key, index);
        route_counts::raise(&mut self.counts, &mut self.count_hints, number);
        route_counts::lower(&mut self.counts, &mut self.count_hints, before);
        Ok(())
    }

    /// From now on the channel leads nowhere. Gives the session to which it led.
    pub(crate) fn take(&mut self, channel: IncomingChannel) -> Option<u32>
        ensures value { result ≡ map.get self.old.routes channel.0 }
        ensures removed { self.new ≡ record self.old { routes = map.remove self.old.routes channel.0 } }
    {
        let number = keys::take(&mut self.routes, &mut self.hints, u32::from(channel.0));
        route_counts::lower(&mut self.counts, &mut self.count_hints, number);
        number
    }
}
