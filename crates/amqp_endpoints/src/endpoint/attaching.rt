//! Attaches of a session's links (AMQP 1.0 part 2, section 2.6.3).

ghost use Rattle.std.specs.Prelude.{◌≡◌, ◌<◌, None, length, true};
ghost use Rattle.amqp_links.specs.Ends.{end_at};
ghost use Rattle.amqp_endpoints.specs.Attaching.{AddsLink, AsksAttach, AttachesLink, AttachesUnder, FindsHandle, RequestsAttach};
ghost use Rattle.amqp_endpoints.specs.Attaching.{handle_named, new_end, said_attach};

use super::SessionEndpoint;
use crate::fitting::fits;
use crate::place::LinkPlace;
use amqp_driver::{Asked, Stream};
use amqp_engine::Input;
use amqp_links::Renewal;
use amqp_session::{LinkRelay, OutputHandle};
use amqp_types::{Attach, Handle, Role};

/// Why a link is not attached. No link has changed.
#[derive(Debug, Drop)]
pub enum AttachError {
    /// No handle is allotted to a live link of this name: [`Input::AllocateLink`] or [`Input::AllocateIncomingLink`] allots one.
    NoLink,
    /// The handle has an end already: [`SessionEndpoint::remove`] takes it away, once its link is over.
    InUse,
    /// Memory was refused for it. Nothing was requested.
    OutOfMemory,
    /// The Attach was requested, and not done, for this reason. [`Asked::TooLarge`] where it does not fit the peer's frame: nothing was requested then.
    Asked(Asked),
}

/// The end that a link is to have.
#[derive(Clone, Copy)]
enum NewEnd {
    /// A sender's, whose delivery count begins here.
    Sending(u32),
    /// A receiver's, with this rule of renewal, and this max-message-size.
    Receiving(Option<Renewal>, Option<u64>),
}

/// The end of a link whose Attach this is.
fn new_end(attach: &Attach, renewal: Option<Renewal>) -> NewEnd
    ensures { result ≡ new_end attach.now renewal }
{
    match attach.role {
        Role::Sender => NewEnd::Sending(attach.initial_delivery_count.unwrap_or(0)),
        Role::Receiver => NewEnd::Receiving(renewal, attach.max_message_size),
    }
}

/// The Attach that is sent: with the link's handle, and with the count that a sender has to say (section 2.7.3).
fn said_attach(attach: Attach, handle: OutputHandle) -> Attach
    ensures { result ≡ said_attach attach handle }
{
    let mut said = attach;
    said.handle = Handle(handle.0);
    if said.role == Role::Sender {
        said.initial_delivery_count = Some(said.initial_delivery_count.unwrap_or(0));
    }
    said
}

impl SessionEndpoint {
    /// Attaches a link: its Attach is requested, with the handle that is allotted to its name, and it has an end from then on. A sender's `initial-delivery-count`
    /// is 0 where `attach` says none. A receiver renews its credit by `renewal`; with `None` it never does by itself. Where the peer's Attach came first,
    /// [`SessionEndpoint::on_wanted`] tells it to the link then.
    ///
    /// A link without a source or a target is refused by this side (AMQP 1.0 part 2, section 2.6.3): [`SessionEndpoint::detach`] ends it then, with the reason.
    ///
    /// # Errors
    /// Each [`AttachError`] says when.
    ///
    /// ```
    /// stream.request(Input::AllocateLink(session, name, Some(relay)));
    /// let link = endpoint.attach(&mut stream, attach, Some(Renewal { low: 50, high: 100 }))?;
    /// ```
    pub fn attach<R: LinkRelay>(
        &mut self,
        stream: &mut Stream<R>,
        attach: Attach,
        renewal: Option<Renewal>,
    ) -> Result<OutputHandle, AttachError>
        ensures { AttachesLink R.gives self.old stream.old attach renewal result stream.new self.new }
    {
        match self.handle_for(stream, &attach) {
            Ok(handle) => self.attach_on(stream, handle, attach, renewal),
            Err(error) => {
                drop(attach);
                Err(error)
            }
        }
    }

    /// The same of a link whose handle is allotted to another name than its Attach has. A server needs it whose clients give one name to a sender and a
    /// receiver, which is two links (AMQP 1.0 part 2, section 2.6.1): it has them under names that [`marked_name`](amqp_driver::marked_name) tells apart, and
    /// each Attach has the client's name.
    ///
    /// # Errors
    /// Those of [`SessionEndpoint::attach`].
    ///
    /// ```
    /// let name = marked_name(alloc, theirs.role, theirs.name.as_str())?;
    /// stream.request(Input::AllocateIncomingLink(session, name.clone()?, relay, input));
    /// let link = endpoint.attach_under(&mut stream, name.as_str(), attach, None)?;
    /// ```
    pub fn attach_under<R: LinkRelay>(
        &mut self,
        stream: &mut Stream<R>,
        name: &str,
        attach: Attach,
        renewal: Option<Renewal>,
    ) -> Result<OutputHandle, AttachError>
        ensures { AttachesUnder R.gives name.now self.old stream.old attach renewal result stream.new self.new }
    {
        match self.handle_of(stream, name) {
            Ok(handle) => self.attach_on(stream, handle, attach, renewal),
            Err(error) => {
                drop(attach);
                Err(error)
            }
        }
    }

    /// The Attach is requested with this handle.
    fn attach_on<R: LinkRelay>(
        &mut self,
        stream: &mut Stream<R>,
        handle: OutputHandle,
        attach: Attach,
        renewal: Option<Renewal>,
    ) -> Result<OutputHandle, AttachError>
        requires free { end_at self.old.links.ends handle.0 ≡ None }
        requires room { handle.0 < length self.old.links.ends }
        ensures { AsksAttach R.gives self.old stream.old (said_attach attach handle) handle (new_end attach renewal) result stream.new self.new }
    {
        let end = new_end(&attach, renewal);
        let said = said_attach(attach, handle);
        self.ask_attach(stream, said, handle, end)
    }

    /// The handle that is allotted to the name of a link, where it has no end. There is room for one then.
    fn handle_for<R: LinkRelay>(
        &mut self,
        stream: &Stream<R>,
        attach: &Attach,
    ) -> Result<OutputHandle, AttachError>
        ensures { FindsHandle (handle_named stream.now self.old attach.now.name) self.old result self.new }
    {
        self.handle_of(stream, attach.name.as_str())
    }

    /// The same of any name.
    fn handle_of<R: LinkRelay>(
        &mut self,
        stream: &Stream<R>,
        name: &str,
    ) -> Result<OutputHandle, AttachError>
        ensures { FindsHandle (handle_named stream.now self.old name.now) self.old result self.new }
    {
        let Some(handle) = stream.engine().output_handle(self.session, name) else {
            return Err(AttachError::NoLink);
        };
        if self.links.end(handle.0).is_some() {
            return Err(AttachError::InUse);
        }
        match self.make_room(handle.0) {
            Ok(()) => Ok(handle),
            Err(_) => Err(AttachError::OutOfMemory),
        }
    }

    /// The Attach is requested, and the link has this end where that is done.
    fn ask_attach<R: LinkRelay>(
        &mut self,
        stream: &mut Stream<R>,
        said: Attach,
        handle: OutputHandle,
        end: NewEnd,
    ) -> Result<OutputHandle, AttachError>
        requires free { end_at self.old.links.ends handle.0 ≡ None }
        requires room { handle.0 < length self.old.links.ends }
        ensures { AsksAttach R.gives self.old stream.old said handle end result stream.new self.new }
    {
        if fits(said.encoded_len(), stream.engine().max_piece_len()) {
            self.request_attach(stream, said, handle, end)
        } else {
            drop(said);
            Err(AttachError::Asked(Asked::TooLarge))
        }
    }

    fn request_attach<R: LinkRelay>(
        &mut self,
        stream: &mut Stream<R>,
        said: Attach,
        handle: OutputHandle,
        end: NewEnd,
    ) -> Result<OutputHandle, AttachError>
        requires free { end_at self.old.links.ends handle.0 ≡ None }
        requires room { handle.0 < length self.old.links.ends }
        ensures { RequestsAttach true R.gives self.old stream.old said handle end result stream.new self.new }
    {
        match stream.request(Input::Attach(self.session, said)) {
            Asked::Done => {
                self.add(handle.0, end);
                Ok(handle)
            }
            asked => Err(AttachError::Asked(asked)),
        }
    }

    /// The link has this end.
    fn add(&mut self, handle: u32, end: NewEnd)
        requires free { end_at self.old.links.ends handle ≡ None }
        requires room { handle < length self.old.links.ends }
        ensures { AddsLink self.old handle end self.new }
    {
        let before = self.places.get(handle);
        self.places.put(
            handle,
            LinkPlace {
                is_listed: before.is_listed,
                ..LinkPlace::none()
            },
        );
        drop(match end {
            NewEnd::Sending(count) => self.links.add_sender(handle, count),
            NewEnd::Receiving(renewal, limit) => self.links.add_receiver(handle, renewal, limit),
        });
    }
}
