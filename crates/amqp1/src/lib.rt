//! The library for C: an engine in a place that the caller keeps, and the functions over it.
//!
//! An engine is one side of a connection from its first byte to its last: an `amqp_driver::Stream`, and the last refusal of a request. It lies in a
//! [`place::Place`], or nothing does. `amqp1_new` makes it, `amqp1_take` takes what came and writes a record of each thing, `amqp1_answer` gives
//! what a record asks for, `amqp1_heard` tells that bytes came which are not taken yet, `amqp1_tick` tells the time, `amqp1_send` sends transfers, `amqp1_cut` cuts long ones, `amqp1_call` does one operation of those below, and `amqp1_free` lets it go.
//! `amqp1_version` is 256: 0.1.0. `include/amqp1.h` declares them.
//!
//! Beside the stream lie the links of its sessions, each a [`SessionEndpoint`](amqp_endpoints::SessionEndpoint) (AMQP 1.0 part 2, sections 2.6 and 2.7): `amqp1_link_attach`
//! makes one with the first link of a session, and `amqp1_link_forget` lets it go. `amqp1_link_event` tells it a record, `amqp1_link_respond` sends what it owes, and
//! the other functions of links are each one call of it.
//!
//! Nothing is kept of what came: bytes that `amqp1_take` did not take are given again, with what came since. Records say where payloads and
//! performatives stand in the input of that call. Relays answer by `amqp_events::Policy`, and tell nobody: an owner reads the records.
//!
//! All numbers in inputs and outputs of `amqp1_call` are in network order. *PERF* is a performative's own bytes: a described list, as it stands in
//! a frame after the header. It is the whole rest of the input, or has its length before it: so no bytes are no PERF, and nothing that follows is
//! read as one.
//!
//! # A new engine
//!
//! `amqp1_new` takes a [`how::How`]: 16 bytes that the peer does not know, by which names, handles and channels are found, the time, how long the
//! opening may take, and this side of SASL (AMQP 1.0 part 5, section 5.3): 0 without, 1 for a client, 2 for a server. A key of 16 zeros is refused:
//! it was forgotten. It takes PERF of this side's Open, and logins by the sizes of each ([`logins::LoginHead`]): a client's in the order in which it
//! prefers them, or the mechanisms that a server offers, at least one. Their bytes stand one after the other, behind the name of the host that a
//! client asks for, and are all the bytes there are.
//!
//! # Operations
//!
//! Numbers that are absent are never used again.
//!
//! | | Operation | Input | What it does; what it writes |
//! |---|---|---|---|
//! | 2 | `Open` | none | this side's Open is to be sent |
//! | 3 | `Close` | u8 0 for no error, or u8 1, then an error | this side's Close is to be sent |
//! | 4 | `Begin` | u32 session, PERF of a Begin without remote-channel | a session is begun |
//! | 5 | `End` | u32 session, and on as in 3 | a session is ended |
//! | 6 | `Release` | u32 session | its channel is given back |
//! | 7 | `Forget` | u32 session | a session that is over is let go |
//! | 8 | `Link` | u32 session, u8 role (0 sender, 1 receiver), u8 receiver settle mode (0 first, 1 second), name | a link is allotted a handle, and waits for the peer's attach; u32 output handle |
//! | 9 | `LinkOn` | u32 session, u32 input handle, and on as in 8 | the same, where the peer's attach came on that handle |
//! | 10 | `Attach` | u32 session, PERF | an Attach is to be sent |
//! | 11 | `Detach` | u32 session, u8 (1 where the peer is to answer), PERF | a Detach is to be sent |
//! | 12 | `Flow` | u32 session, PERF of a Flow with a handle | a Flow is to be sent |
//! | 13 | `Transfer` | u32 session, u8 (1 for the first of its delivery), u32 length of PERF, PERF, payload | a Transfer is to be sent, of the link that has the handle of PERF |
//! | 14 | `Disposition` | u32 session, PERF | a Disposition is to be sent |
//! | 15 | `Settle` | u32 session, u8 role, u32 first, u32 last | deliveries that this side settles are let go |
//! | 16 | `Output` | none | bytes that are to be sent, headers, SASL and frames, as many as fit: they are taken off |
//! | 18 | `Refusal` | none | the last refusal of a request: its name, a condition and a description, with a line feed between: the condition that answers a frame that is refused so, if any; or condition and description of the error with which the peer ended or closed |
//! | 19 | `RemoteOpen` | none | PERF of the peer's Open; nothing before it |
//! | 20 | `MaxPieceLen` | none | u32, as `Engine::max_piece_len` |
//! | 21 | `PayloadRoom` | PERF of a Transfer | u32, as `Engine::payload_room`; nothing where the transfer itself does not fit a frame |
//! | 23 | `SessionOf` | u16 channel of the peer's | u32 session; nothing where the channel leads to none |
//! | 24 | `State` | none | u8: the connection's state, in the order of `ConnectionState` |
//! | 25 | `SessionState` | u32 session | u8: the session's state, in the order of `SessionState`; nothing where there is no such session |
//! | 27 | `Unfit` | none | u32: how many frames did not fit the peer's limit and were not sent |
//! | 28 | `RefusalText` | u32 number of a refusal, as in a record | its name, the condition that answers a frame that is refused so, and `end` or `close` for the frame that carries it, with a line feed between; nothing where no refusal has the number |
//! | 29 | `Dispose` | u32 session, u8 role, u32 first, u32 last, u8 settled, u8 state (0 none, 1 accepted, 3 released, 4 modified) | a Disposition of these deliveries is to be sent |
//! | 30 | `Login` | u8 outcome (0 ok, 1 auth, 2 sys, 3 sys-perm, 4 sys-temp), u8 1 and additional data, or u8 0 for none | a server answers a client that asks to be let in: 0 lets it in, and nothing else does |
//! | 31 | `Challenge` | the challenge | a server asks a client for more |
//! | 32 | `Respond` | the response | a client answers a challenge |
//! | 33 | `IsOver` | none | u8: 1 where the connection is over, else 0 |
//! | 34 | `AnswerBegin` | u32 session, u32 length of PERF, PERF of a Begin without remote-channel, the peer's frame behind its size | a session begins, with what PERF says, as the answer to the peer's Begin |
//! | 35 | `AnswerEnd` | u32 session, and on as in 3 | a session that the peer has ended is ended by this side too, and let go |
//! | 36 | `LetGo` | u32 session | a session that both sides have ended gives its channel back, and is let go: 6 and 7; of any other nothing changes |
//!
//! # Statuses
//!
//! Each export but `amqp1_free` and `amqp1_version` answers a status. 6 is never used.
//!
//! - 0 `DONE`. Of `amqp1_take`: what is left is no whole header, SASL frame or frame. Of `amqp1_send`: no head is left.
//! - 1 `REFUSED`, of a request, by a name, which `Refusal` gives. In a session that is mapped a transfer whose link is not attached (the
//!   peer's attach came for no live link that has the handle, or a detach of either side since) is refused `UnattachedHandle`, and is not
//!   run. Where a frame of the request does not fit the peer's limit the name is `TooLarge`: the request was accepted, and that frame
//!   is not sent. Where the connection is over it is `Over`. A call of SASL is refused `WrongTime` where nothing asks for it, and `TooLarge` where its
//!   frame would have more than 512 bytes.
//! - 2 `NO_MEMORY`: memory was refused, and the request, the frame or the transfer was not taken; it may be asked again. `Output` answers it where
//!   some waits in the engine still; what it wrote is to be sent all the same.
//! - 3 `TOO_SMALL`: the output is. Nothing changed, and the number that is written says how many bytes are needed.
//! - 4 `BAD_ARGUMENT`: no such operation, or an input that does not have its form; of `amqp1_new` also where an engine lies there already. Nothing
//!   changed.
//! - 5 `NO_ENGINE`: nothing lies in the place. Nothing changed.
//! - 7 `FULL`: a whole frame is left, or a head, and all places for what is to be said of it are written.
//! - 8 `BAD_SIZE`: a size stands there that no frame may have. A Close for `amqp:connection:framing-error` waits to be sent, and the connection is
//!   over.
//! - 9 `SHORT`: the bytes end before the tag and the payload of the next head do.
//! - 10 `AGAIN`: what was told last is to be answered, or what follows is of another layer. Then the rest is given again.
//! - 11 `WAITS`: `Login`, `Challenge` or `Respond` comes first.
//! - 12 `OVER`: the connection is over, and nothing is taken any more.
//! - 13 `TOO_LARGE`: the SASL frame to send would have more than 512 bytes.
//! - 14 `NOTHING`, of `amqp1_answer`: the record asks for no answer, or for none that was named, or none is due; of the calls of links: there is nothing to send, or to
//!   tell. Nothing changed.
//! - 15 `LOST` and 16 `BROKEN`, of an answer to a Begin: memory was refused once the engine had begun. After the first the number is used, and the peer has no
//!   answer; after the second it has one, and its Begin was not taken: the connection cannot go on.
//! - 17 `NOT_RELEASED` and 18 `NOT_FORGOTTEN`, of an answer to an End, and of `LetGo`: what was before is done, and the channel was not given back; or it was,
//!   and the session was not let go. `Refusal` says why.
//! - 19 `NOT_DETACHED` and 20 `UNSETTLED`, of `amqp1_link_remove`; 21 `NOT_NEXT`, of `amqp1_link_event`; 22 `NO_LINK`, of `amqp1_link_attach` and `amqp1_link_remove`; 23 `IN_USE`, of
//!   `amqp1_link_attach`; 24 `HELD_BACK`, of `amqp1_link_respond`, `amqp1_link_flow` and `amqp1_link_detach`: `amqp1_link_due` tells
//!   when to ask again, and of a Detach before the peer's Attach the record of that Attach. `status::Status` says when each is answered.
//!
//! An answer to a Begin is `REFUSED` as `NotOpened`, `ChannelInUse`, `TooLarge`, or by the engine's name, and one to an End, or `LetGo`, as `NotEnded`; it is
//! `BAD_ARGUMENT` also where the frame is no Begin that answers none. `amqp_driver::BeginAnswer` and `EndAnswer` say what has changed then.
//!
//! # What is proved, and what is not
//!
//! For each value of the place that these functions can have made, also of one that is all zero: no function reads or writes what is not its
//! own, none panics, each ends, the engine is freed once, and each contract holds. The walks by hand under `proofs/slot` show that a pointer to C
//! and back owns what it owned.
//!
//! `specs/Place` has the contracts, and for links `specs/LinkNumbers` and `specs/LinkCalls`: each call is that of the session's endpoint which it names, whose contract stands in
//! `amqp_endpoints`. `amqp1_take`, `amqp1_heard`, `amqp1_tick` and `amqp1_send` promise all that `Stream::take`, `heard`, `tick` and `send` do: which header or
//! SASL frame was taken, and that no frame is run before a login where one is asked for; which frames were run, each once and in order, and the
//! record of each; what was due; which heads were handled, and what became of each. `amqp1_answer` promises what `Stream::answer` does, and `specs/Answering`
//! the same of the operations 34 to 36; the status and the last refusal say what became of it. `specs/Making` says which stream is made. `specs/Client` says of
//! each operation what it does. Any other request is one run of the engine with the one input that its bytes ask for, or its bytes ask for none, or for a transfer whose
//! link is not attached (`specs/Finding`). What `Output` writes is a front of what waits, as much as fits, and waits no longer. The
//! name of a number is that of each refusal that has it (`specs/Names`). An output that is too small stays as it is, and so does all else.
//!
//! What is not: that the caller keeps the place as `amqp1.h` says. No contract says that the key is used, nor that memory is granted. The tests of
//! `tools/try_c` see to these.
#![tactic(auto)]

mod answering;
mod asking;
mod client;
mod delivered;
mod disposing;
mod event;
mod exports;
mod finding;
mod how;
mod key;
mod link_exports;
mod linking;
mod logging_in;
mod logins;
mod names;
mod occupant;
mod operation;
mod place;
mod reading;
mod refused;
mod settling_exports;
mod slot;
mod status;
mod taking;
mod telling;
mod writing;
