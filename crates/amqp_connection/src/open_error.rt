//! Why a connection does not open. No call of this crate answers these: opening a stream and negotiating are the transport's.

ghost use Rattle.std.specs.Prelude.{◌≡◌};
ghost use Rattle.amqp_connection.specs.ConnectionErrors.{open_of_negotiation, open_of_state};

use crate::error::ConnectionStateError;
use amqp_types::Error as AmqpError;
use bytes::Bytes;

/// Why a connection does not open. It is for transports: no call of this crate answers it.
#[derive(Debug, Drop, PartialEq, thiserror::Error)]
pub enum OpenError {
    /// Input or output failed.
    #[error("IO Error {0:?}")]
    Io(String),
    /// The URL can't be read.
    #[error("{0}")]
    UrlError(String),
    /// The domain is not valid, or is not found.
    #[error("Invalid domain")]
    InvalidDomain,
    /// There is nothing to make TLS with.
    #[error("TLS connector is not found")]
    TlsConnectorNotFound,
    /// The scheme is neither of the two that are known.
    #[error("Invalid scheme. Only \"amqp\" and \"amqps\" are supported.")]
    InvalidScheme,
    /// The scheme can't carry this SASL mechanism.
    #[error("SASL EXTERNAL mechanism requires \"amqps\" scheme.")]
    InvalidSchemeForSaslExternal,
    /// The peer's protocol header is another one.
    #[error("Protocol header mismatch. Found {0:?}")]
    ProtocolHeaderMismatch(Bytes),
    /// The SASL exchange failed, with the outcome's code, and what else it says.
    #[error("SASL error code {:?}, additional data: {:?}", .code, .additional_data)]
    SaslError {
        /// The code of the outcome.
        code: u8,
        /// What else the outcome says.
        additional_data: Option<Bytes>,
    },
    /// The state does not take this.
    #[error("Illegal local state")]
    IllegalState,
    /// What is asked for is left out.
    #[error("Not implemented")]
    NotImplemented(Option<String>),
    /// What came is no frame.
    #[error("Decode error")]
    DecodeError(String),
    /// The transport failed.
    #[error("{0}")]
    TransportError(String),
    /// The peer closed the connection.
    #[error("Remote peer closed")]
    RemoteClosed,
    /// The peer closed the connection with this error.
    #[error("Remote peer closed connection with error {}", .0)]
    RemoteClosedWithError(AmqpError),
    /// Memory was refused.
    #[error("out of memory")]
    OutOfMemory,
}

/// Why the protocol headers are not exchanged (AMQP 1.0 part 2, section 2.2). It is for transports: no call of this crate answers it.
#[derive(Debug, Drop, PartialEq, thiserror::Error)]
pub enum NegotiationError {
    /// Input or output failed.
    #[error("IO Error {0:?}")]
    Io(String),
    /// What came is no frame.
    #[error("Decode error")]
    DecodeError(String),
    /// The peer's protocol header is another one.
    #[error("Protocol header mismatch. Found {0:?}")]
    ProtocolHeaderMismatch(Bytes),
    /// The domain is not valid, or is not found.
    #[error("Invalid domain")]
    InvalidDomain,
    /// The SASL exchange failed, with the outcome's code, and what else it says.
    #[error("SASL error code {:?}, additional data: {:?}", .code, .additional_data)]
    SaslError {
        /// The code of the outcome.
        code: u8,
        /// What else the outcome says.
        additional_data: Option<Bytes>,
    },
    /// What is asked for is left out.
    #[error("Not implemented")]
    NotImplemented(Option<String>),
    /// The state does not take this.
    #[error("Illegal local state")]
    IllegalState,
}

impl From<NegotiationError> for OpenError {
    ghost from_gives = { λ n e. e ≡ open_of_negotiation n };

    fn from(error: NegotiationError) -> OpenError {
        match error {
            NegotiationError::Io(text) => OpenError::Io(text),
            NegotiationError::DecodeError(text) => OpenError::DecodeError(text),
            NegotiationError::ProtocolHeaderMismatch(header) => {
                OpenError::ProtocolHeaderMismatch(header)
            }
            NegotiationError::InvalidDomain => OpenError::InvalidDomain,
            NegotiationError::SaslError {
                code,
                additional_data,
            } => OpenError::SaslError {
                code,
                additional_data,
            },
            NegotiationError::NotImplemented(text) => OpenError::NotImplemented(text),
            NegotiationError::IllegalState => OpenError::IllegalState,
        }
    }
}

impl From<ConnectionStateError> for OpenError {
    ghost from_gives = { λ s e. e ≡ open_of_state s };

    fn from(error: ConnectionStateError) -> OpenError {
        match error {
            ConnectionStateError::IllegalState => OpenError::IllegalState,
            ConnectionStateError::RemoteClosed => OpenError::RemoteClosed,
            ConnectionStateError::RemoteClosedWithError(error) => {
                OpenError::RemoteClosedWithError(error)
            }
            ConnectionStateError::TransportError(text) => OpenError::TransportError(text),
            ConnectionStateError::OutOfMemory => OpenError::OutOfMemory,
        }
    }
}
