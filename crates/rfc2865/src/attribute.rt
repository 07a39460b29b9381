// The sizes of an attribute (RFC 2865, section 5).

/// A type and a length are a byte each, and the header is both.
pub const HEADER_SIZE: usize = 2;
