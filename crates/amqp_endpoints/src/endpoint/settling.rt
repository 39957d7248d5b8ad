//! Settlement of deliveries of a session (AMQP 1.0 part 2, sections 2.6.12 and 2.7.6).

ghost use Rattle.std.specs.Prelude.{◌≡◌, Some};
ghost use Rattle.amqp_engine.specs.declared.engine.input.Input.TheVariants as input;
ghost use Rattle.amqp_driver.specs.StreamTicking.{AsksStream};
ghost use Rattle.amqp_driver.specs.Settling.{state_of};
ghost use Rattle.amqp_endpoints.specs.Settling.{LeavesNext, LetsGo, LetsOneGo, SettlesAs, SettlesBy, lacks_memory, role_at};
ghost use Rattle.amqp_driver.specs.Record.{number_or};

use super::SessionEndpoint;
use amqp_driver::{Asked, Stream};
use amqp_engine::Input;
use amqp_links::{End, Entry};
use amqp_session::LinkRelay;
use amqp_types::{Disposition, Role};

/// Memory was refused. Nothing has changed.
#[derive(Clone, Copy, Debug, PartialEq, Eq)]
pub struct NoMemory;

/// Whether memory was refused for a request.
fn lacks_memory(asked: &Asked) -> bool
    ensures { result ≡ lacks_memory asked.now }
{
    matches!(asked, Asked::NoMemory)
}

/// The last number that a disposition means: the first one, where it names none.
fn last_of(disposition: &Disposition) -> u32
    ensures { result ≡ number_or disposition.now.first disposition.now.last }
{
    match disposition.last {
        Some(last) => last,
        None => disposition.first,
    }
}

/// The role of this side on the link that has this end.
fn role_of(end: Option<End>) -> Role
    ensures { result ≡ role_at end }
{
    let Some(end) = end else {
        return Role::Sender;
    };
    match end {
        End::Sending(_) => Role::Sender,
        End::Receiving(_) => Role::Receiver,
    }
}

impl SessionEndpoint {
    /// A disposition of deliveries of the session, from the first number to the last, is sent (section 2.7.6). `role` is this side's: [`Role::Receiver`] means
    /// those that have come. `outcome` is one of those of records: 0 none, 1 accepted, 3 released, 4 modified; of any other number `None` is answered, and
    /// nothing happens. Where it settles them the session lets them go, and [`SessionEndpoint::settled_next`] gives each one back.
    ///
    /// Where the answer is [`Asked::NoMemory`] it may be called again: a peer passes over what it has settled before.
    ///
    /// ```
    /// endpoint.settle(&mut stream, Role::Receiver, part.number, part.number, true, 1);      // accepted
    /// while let Some(entry) = endpoint.settled_next(Role::Receiver, part.number, part.number) { .. }
    /// ```
    pub fn settle<R: LinkRelay>(
        &self,
        stream: &mut Stream<R>,
        role: Role,
        first: u32,
        last: u32,
        settled: bool,
        outcome: u8,
    ) -> Option<Asked>
        ensures { SettlesBy R.gives self.now stream.old role first last settled (state_of outcome) result stream.new }
    {
        match stream.dispose(self.session, role, first, last, settled, outcome)? {
            Asked::Done => Some(self.let_go_if(stream, role, first, last, settled)),
            asked => Some(asked),
        }
    }

    /// The same by a disposition of any state, as one of rejected with an error, or of modified with its fields (part 3, sections 3.4.2 and 3.4.5).
    ///
    /// Where the answer is [`Asked::NoMemory`] it may be called again: a peer passes over what it has settled before.
    pub fn settle_by<R: LinkRelay>(&self, stream: &mut Stream<R>, disposition: Disposition) -> Asked
        ensures { SettlesAs R.gives self.now stream.old disposition result stream.new }
    {
        let (role, first, settled) = (disposition.role, disposition.first, disposition.settled);
        let last = last_of(&disposition);
        match stream.request(Input::Disposition(self.session, disposition)) {
            Asked::Done => self.let_go_if(stream, role, first, last, settled),
            asked => asked,
        }
    }

    /// Takes out the oldest delivery that is left unsettled on the link that has this handle, once the peer has detached it, and the session lets it go. Called
    /// until it answers `None`, it tells each one once, in the order of their numbers (section 2.6.13).
    ///
    /// # Errors
    /// [`NoMemory`] where memory was refused to let it go. Nothing is taken out then, and the call may be made again.
    pub fn left_next<R: LinkRelay>(
        &mut self,
        stream: &mut Stream<R>,
        handle: u32,
    ) -> Result<Option<Entry>, NoMemory>
        ensures { LeavesNext R.gives self.old stream.old handle result stream.new self.new }
    {
        let Some(entry) = self.links.left(handle) else {
            return Ok(None);
        };
        let role = role_of(self.links.end(handle));
        let asked = self.let_go(stream, role, entry.number, entry.number);
        if lacks_memory(&asked) {
            return Err(NoMemory);
        }
        Ok(self.links.left_next(handle))
    }

    /// The session lets deliveries go, where they are settled.
    fn let_go_if<R: LinkRelay>(
        &self,
        stream: &mut Stream<R>,
        role: Role,
        first: u32,
        last: u32,
        settled: bool,
    ) -> Asked
        ensures { LetsGo settled R.gives self.now stream.old role first last result stream.new }
    {
        if settled {
            self.let_go(stream, role, first, last)
        } else {
            Asked::Done
        }
    }

    /// The session lets deliveries go.
    pub(super) fn let_go<R: LinkRelay>(
        &self,
        stream: &mut Stream<R>,
        role: Role,
        first: u32,
        last: u32,
    ) -> Asked
        ensures { AsksStream R.gives stream.old (input.Settle self.now.session role first (Some last)) result stream.new }
    {
        stream.request(Input::Settle(self.session, role, first, Some(last)))
    }

    /// The session lets the delivery of this number go. Whether memory was there for it.
    pub(super) fn let_one_go<R: LinkRelay>(
        &self,
        stream: &mut Stream<R>,
        role: Role,
        number: u32,
    ) -> bool
        ensures { LetsOneGo R.gives self.now stream.old role number result stream.new }
    {
        let asked = self.let_go(stream, role, number, number);
        !lacks_memory(&asked)
    }
}
