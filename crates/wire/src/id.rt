// The four IDs of a header. All are sixteen bits wide, and each is a kind of its own, so that none can stand for another.

#[derive(Clone, Copy, PartialEq, Eq, Debug)]
pub struct ServiceId(pub u16);

#[derive(Clone, Copy, PartialEq, Eq, Debug)]
pub struct MethodId(pub u16);

#[derive(Clone, Copy, PartialEq, Eq, Debug)]
pub struct ClientId(pub u16);

#[derive(Clone, Copy, PartialEq, Eq, Debug)]
pub struct SessionId(pub u16);
