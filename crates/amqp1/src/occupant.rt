//! What lies in a place: a client, and the links of its sessions.

ghost use Rattle.std.specs.Prelude.{◌≡◌, [], IfOk, OnOk, OnErr, is_some};
ghost use Rattle.amqp_memory.specs.Refusal.{SomeRefused};
ghost use Rattle.amqp1.specs.Occupant.{ForgetsLinks, Provides, credit_at, credit_of, links_of, newly};

mod asking;
mod attaching;
mod by_number;
mod client_calls;
mod sending;
mod settling;
mod telling;

use crate::client::Client;
use amqp_connection::SessionNo;
use amqp_endpoints::SessionEndpoint;
use amqp_links::End;
use amqp_memory::more_in_map;
use amqp_session::keys::{self, Hints, KeyHash, Numbered};
use indexmap::IndexMap;
use std::alloc::{AllocError, Global};
use std::marker::Model;

/// A client, and the links of each of its sessions that has any: a session has them from the first link that is attached by
/// [`Occupant::attach`] until [`Occupant::forget_links`].
pub struct Occupant {
    alloc: Global,
    client: Client,
    links: Numbered<SessionEndpoint>,
    hints: Hints,
    hash: KeyHash,
}

// By hand, as that of a client is.
impl Drop for Occupant {
    fn drop(self) {
        let Occupant {
            alloc: _,
            client,
            links,
            hints: _,
            hash: _,
        } = self;
        drop(client);
        drop(links);
    }
}

impl Model for Occupant {
    ghost use Rattle.std.specs.Coded.{codes};
    ghost use Rattle.std.specs.FinMap as map;
    ghost use Rattle.amqp_session.specs.Hashing.{hash_code};
    ghost use Rattle.amqp_session.specs.Links.{links_code};
    ghost use Rattle.amqp_connection.specs.Channels.{channel_table_code};
    ghost use Rattle.amqp_endpoints.specs.Endpoint.{input_table_code};
    ghost use Rattle.amqp1.specs.Inner.LinksTable.{links_table_code};
    ghost use Rattle.amqp1.specs.OccupantView.{OccupantView};

    ghost Value = { OccupantView };

    ghost coded = { Prim.hlevel (codes, channel_table_code, hash_code, links_code, map.code, input_table_code, links_table_code) };

    ghost view = { λ o. record { client = o.client; links = map.from_entries o.links.entries } };
}

impl Occupant {
    /// A client without links. The peer's handles are found by this hash, which is that of the client's stream.
    pub fn new(alloc: Global, client: Client, hash: KeyHash) -> Occupant
        ensures { result ≡ newly client }
    {
        Occupant {
            alloc,
            client,
            links: IndexMap::with_hasher(alloc, hash),
            hints: Hints::new(),
            hash,
        }
    }

    /// The credit of the link of a session that has this handle: how many deliveries a sender may begin, or the peer may. 0 where there is none.
    pub fn credit(&self, session: u32, link: u32) -> u32
        ensures { result ≡ credit_at (links_of self.now session) link }
    {
        match keys::get(&self.links, &self.hints, session) {
            Some(links) => credit_of(links.links().end(link)),
            None => 0,
        }
    }

    /// The session has no links any more: what is unsettled on them is not told. Whether it had any.
    pub fn forget_links(&mut self, session: u32) -> bool
        ensures { ForgetsLinks self.old session result self.new }
    {
        match keys::take(&mut self.links, &mut self.hints, session) {
            Some(links) => {
                drop(links);
                true
            }
            None => false,
        }
    }

    /// The session has links, if it had none before: none of them yet.
    fn provide(&mut self, session: u32) -> Result<(), AllocError>
        ensures ok { OnOk result (Provides self.old session self.new) }
        ensures err { OnErr result (self.new ≡ self.old) }
        ensures refused { OnErr result SomeRefused }
    {
        if keys::get(&self.links, &self.hints, session).is_some() {
            return Ok(());
        }
        more_in_map(&mut self.links, 1)?;
        let links = SessionEndpoint::new(self.alloc, SessionNo(session), self.hash);
        drop(keys::put(&mut self.links, &mut self.hints, session, links));
        Ok(())
    }
}

/// The credit of an end. 0 where there is none.
fn credit_of(end: Option<End>) -> u32
    ensures { result ≡ credit_of end }
{
    let Some(end) = end else {
        return 0;
    };
    match end {
        End::Sending(link) => link.credit(),
        End::Receiving(link) => link.credit(),
    }
}
