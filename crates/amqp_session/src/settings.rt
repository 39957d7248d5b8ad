//! What a session begins with (AMQP 1.0 part 2, section 2.7.2).

ghost use Rattle.std.specs.Prelude.{◌≡◌, IfOk, OnErr};
ghost use Rattle.amqp_memory.specs.Refusal.{SomeRefused};
ghost use Rattle.amqp_session.specs.Settings.{default_settings, begin_of};

use crate::copies;
use amqp_types::{Begin, Fields, Handle, Symbol, Uint};
use std::alloc::AllocError;
use std::marker::Model;

/// The incoming and the outgoing window of a session whose settings name none: 5000 transfers.
pub const DEFAULT_WINDOW: Uint = 5000;

/// What this side of a session begins with; a Begin carries it to the peer (AMQP 1.0 part 2, section 2.7.2).
///
/// ```
/// let mut settings = SessionSettings::new();
/// settings.incoming_window = 100;
/// let input = Input::Begin(SessionNo(0), settings);
/// ```
#[derive(Debug, Drop)]
pub struct SessionSettings {
    /// The number of the first transfer that goes out: 0 to 4294967295.
    pub next_outgoing_id: u32,
    /// How many transfers may come before a flow grants more: 0 to 4294967295. A session names it, and refuses no transfer past it. Once half
    /// of it came, a session flow is due.
    pub incoming_window: u32,
    /// The outgoing window that the Begin and each flow name: 0 to 4294967295 transfers. It does not hold a transfer back: only the
    /// peer's incoming window does.
    pub outgoing_window: u32,
    /// The highest handle that the peer may use. A session names it, and does not check the peer's handles.
    pub handle_max: Handle,
    /// The capabilities that this side offers.
    pub offered_capabilities: Option<Vec<Symbol>>,
    /// The capabilities that this side may use if the peer supports them.
    pub desired_capabilities: Option<Vec<Symbol>>,
    /// Properties of the session.
    pub properties: Option<Fields>,
}

impl Model for SessionSettings {
    ghost use Rattle.std.specs.Option.{option_map};
    ghost use Rattle.amqp_session.specs.Settings.{SettingsModel};

    ghost Value = { SettingsModel };

    ghost view = { λ s. record {
      next_outgoing_id = s.next_outgoing_id;
      incoming_window = s.incoming_window;
      outgoing_window = s.outgoing_window;
      handle_max = s.handle_max.0;
      offered_capabilities = option_map (λ v. v.items) s.offered_capabilities;
      desired_capabilities = option_map (λ v. v.items) s.desired_capabilities;
      properties = s.properties;
    } };
}

impl Clone for SessionSettings {
    ghost is_clone = { λ p q. q ≡ p };

    fn clone(&self) -> Result<SessionSettings, AllocError>
        ensures value { IfOk result (λ q. q ≡ self.now) }
        ensures refused { OnErr result SomeRefused }
    {
        Ok(SessionSettings {
            next_outgoing_id: self.next_outgoing_id,
            incoming_window: self.incoming_window,
            outgoing_window: self.outgoing_window,
            handle_max: self.handle_max,
            offered_capabilities: copies::symbols(&self.offered_capabilities)?,
            desired_capabilities: copies::symbols(&self.desired_capabilities)?,
            properties: copies::fields(&self.properties)?,
        })
    }
}

impl Default for SessionSettings {
    ghost is_default = { λ s. s ≡ default_settings };

    /// As [`SessionSettings::new`].
    fn default() -> SessionSettings {
        SessionSettings::new()
    }
}

impl SessionSettings {
    /// Number 0 first, both windows 5000, any handle, and nothing else.
    pub fn new() -> SessionSettings
        ensures { result ≡ default_settings }
    {
        SessionSettings {
            next_outgoing_id: 0,
            incoming_window: DEFAULT_WINDOW,
            outgoing_window: DEFAULT_WINDOW,
            handle_max: Handle(u32::MAX),
            offered_capabilities: None,
            desired_capabilities: None,
            properties: None,
        }
    }

    /// The Begin that names these settings, with the number of the first transfer that goes out. It answers the Begin that came on
    /// `remote_channel`, if one is named (part 2, section 2.7.2). A session makes its own Begin, by [`Session::send_begin`](crate::Session).
    pub fn into_begin(self, remote_channel: Option<u16>, next_outgoing_id: u32) -> Begin
        ensures { result ≡ begin_of self remote_channel next_outgoing_id }
    {
        Begin {
            remote_channel,
            next_outgoing_id,
            incoming_window: self.incoming_window,
            outgoing_window: self.outgoing_window,
            handle_max: self.handle_max,
            offered_capabilities: self.offered_capabilities,
            desired_capabilities: self.desired_capabilities,
            properties: self.properties,
        }
    }
}
