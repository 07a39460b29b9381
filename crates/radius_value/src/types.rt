// The kinds of the types of attributes, as a table by number (RFC 2865, sections 5.1 to 5.43; RFC 2866, 5.1 to 5.12).
ghost use Rattle.std.specs.Prelude.{◌≡◌};
ghost use Rattle.rfc2865.specs.Types.{kind_of};

use record::kinds::{ADDRESS, OCTET_STRING, UNHANDLED, UNSIGNED32, UTF8_STRING};

const TYPES: usize = 64;

const KINDS: [u8; TYPES] = [
    UNHANDLED, // 0
    OCTET_STRING, // 1 User-Name
    OCTET_STRING, // 2 User-Password
    OCTET_STRING, // 3 CHAP-Password
    ADDRESS, // 4 NAS-IP-Address
    UNSIGNED32, // 5 NAS-Port
    UNSIGNED32, // 6 Service-Type
    UNSIGNED32, // 7 Framed-Protocol
    ADDRESS, // 8 Framed-IP-Address
    ADDRESS, // 9 Framed-IP-Netmask
    UNSIGNED32, // 10 Framed-Routing
    UTF8_STRING, // 11 Filter-Id
    UNSIGNED32, // 12 Framed-MTU
    UNSIGNED32, // 13 Framed-Compression
    ADDRESS, // 14 Login-IP-Host
    UNSIGNED32, // 15 Login-Service
    UNSIGNED32, // 16 Login-TCP-Port
    UNHANDLED, // 17
    UTF8_STRING, // 18 Reply-Message
    OCTET_STRING, // 19 Callback-Number
    OCTET_STRING, // 20 Callback-Id
    UNHANDLED, // 21
    UTF8_STRING, // 22 Framed-Route
    UNSIGNED32, // 23 Framed-IPX-Network
    OCTET_STRING, // 24 State
    OCTET_STRING, // 25 Class
    OCTET_STRING, // 26 Vendor-Specific
    UNSIGNED32, // 27 Session-Timeout
    UNSIGNED32, // 28 Idle-Timeout
    UNSIGNED32, // 29 Termination-Action
    OCTET_STRING, // 30 Called-Station-Id
    OCTET_STRING, // 31 Calling-Station-Id
    OCTET_STRING, // 32 NAS-Identifier
    OCTET_STRING, // 33 Proxy-State
    OCTET_STRING, // 34 Login-LAT-Service
    OCTET_STRING, // 35 Login-LAT-Node
    OCTET_STRING, // 36 Login-LAT-Group
    UNSIGNED32, // 37 Framed-AppleTalk-Link
    UNSIGNED32, // 38 Framed-AppleTalk-Network
    OCTET_STRING, // 39 Framed-AppleTalk-Zone
    UNSIGNED32, // 40 Acct-Status-Type
    UNSIGNED32, // 41 Acct-Delay-Time
    UNSIGNED32, // 42 Acct-Input-Octets
    UNSIGNED32, // 43 Acct-Output-Octets
    UTF8_STRING, // 44 Acct-Session-Id
    UNSIGNED32, // 45 Acct-Authentic
    UNSIGNED32, // 46 Acct-Session-Time
    UNSIGNED32, // 47 Acct-Input-Packets
    UNSIGNED32, // 48 Acct-Output-Packets
    UNSIGNED32, // 49 Acct-Terminate-Cause
    OCTET_STRING, // 50 Acct-Multi-Session-Id
    UNSIGNED32, // 51 Acct-Link-Count
    UNHANDLED, // 52
    UNHANDLED, // 53
    UNHANDLED, // 54
    UNHANDLED, // 55
    UNHANDLED, // 56
    UNHANDLED, // 57
    UNHANDLED, // 58
    UNHANDLED, // 59
    OCTET_STRING, // 60 CHAP-Challenge
    UNSIGNED32, // 61 NAS-Port-Type
    UNSIGNED32, // 62 Port-Limit
    OCTET_STRING, // 63 Login-LAT-Port
];

/// The kind of a type, and Unhandled of one that neither RFC has.
pub fn kind(code: u8) -> u8
    ensures { result ≡ kind_of code }
{
    KINDS.get(code as usize).copied().unwrap_or(UNHANDLED)
}
