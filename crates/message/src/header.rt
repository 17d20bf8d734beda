// What a caller hands in to write a header. Its layout is `wire::header`.

use super::message_type::MessageType;
use wire::id::{ClientId, MethodId, ServiceId, SessionId};

// All fields but Length and Protocol Version.
#[derive(Clone, Copy)]
pub struct Header {
    pub service: ServiceId,
    pub method: MethodId,
    pub client: ClientId,
    pub session: SessionId,
    pub interface: u8,
    pub kind: MessageType,
    pub code: u8,
}
