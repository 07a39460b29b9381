// The sizes of a packet (RFC 2865, section 3).

/// Code, identifier and length.
pub const FRONT: usize = 4;

pub const AUTHENTICATOR: usize = 16;

/// The front and the authenticator.
pub const HEADER: usize = 20;

/// The largest packet.
pub const MOST: usize = 4096;
