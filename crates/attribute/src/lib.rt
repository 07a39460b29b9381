// AVP attributes: their names, and the dictionary of each reading, as a table of kinds by code and what is beside it.
// This crate knows dictionaries, and nothing of bytes.
#![tactic(auto)]

pub mod kinds;
mod names;

ghost use Rattle.std.specs.Prelude.{◌≡◌, get_or};
ghost use Rattle.record.specs.Kinds.{unhandled};
ghost use Rattle.attribute.specs.Attributes.{kind_table, attribute_of, attribute_in};
ghost use Rattle.attribute.specs.ByTable.{known, dictionary_of, read_by};

use kinds::{CODES, KINDS};
use record::kinds::{DIAMETER_IDENTITY, OCTET_STRING, TIME, UNHANDLED};

// Codes of RFC 6733, section 4.5.
const CLASS: u32 = 25;

const DESTINATION_REALM: u32 = 283;

// Destination-Realm in the Rust. The RFC has no AVP with this code.
const SAWP_DESTINATION_REALM: u32 = 235;

/// Which document decides: the Rust crate sawp-diameter, or RFC 6733.
#[derive(Clone, Copy, Debug, PartialEq, Eq)]
pub enum Reading {
    Sawp,
    Rfc,
}

/// A dictionary: the kinds of the codes from 0 on as a lent table, and what is beside them: are a vendor's codes its own, and does an
/// Address start with its family?
#[derive(Clone, Copy, Debug, PartialEq, Eq)]
pub struct Dictionary<'a> {
    pub kinds: &'a [u8],
    pub vendors: bool,
    pub families: bool,
}

impl Reading {
    /// The reading's dictionary over a table of kinds.
    #[tactic(auto, unfolding(crate::specs::ByTable::read_by))]
    pub fn dictionary<'a>(self, kinds: &'a [u8]) -> Dictionary<'a>
        ensures { result ≡ read_by self kinds.entry }
    {
        match self {
            Reading::Sawp => Dictionary {
                kinds,
                vendors: false,
                families: false,
            },
            Reading::Rfc => Dictionary {
                kinds,
                vendors: true,
                families: true,
            },
        }
    }
}

/// AVP Attribute Names as stated in RFC 6733, section 4.5.
#[derive(Clone, Copy, Debug, PartialEq, Eq)]
pub enum AttributeCode {
    Unknown,
    AcctInterimInterval,
    AccountingRealtimeRequired,
    AcctMultiSessionId,
    AccountingRecordNumber,
    AccountingRecordType,
    AcctSessionId,
    AccountingSubSessionId,
    AcctApplicationId,
    AuthApplicationId,
    AuthRequestType,
    AuthorizationLifetime,
    AuthGracePeriod,
    AuthSessionState,
    ReAuthRequestType,
    Class,
    DestinationHost,
    DestinationRealm,
    DisconnectCause,
    ErrorMessage,
    ErrorReportingHost,
    EventTimestamp,
    ExperimentalResult,
    ExperimentalResultCode,
    FailedAVP,
    FirmwareRevision,
    HostIPAddress,
    InbandSecurityId,
    MultiRoundTimeOut,
    OriginHost,
    OriginRealm,
    OriginStateId,
    ProductName,
    ProxyHost,
    ProxyInfo,
    ProxyState,
    RedirectHost,
    RedirectHostUsage,
    RedirectMaxCacheTime,
    ResultCode,
    RouteRecord,
    SessionId,
    SessionTimeout,
    SessionBinding,
    SessionServerFailover,
    SupportedVendorId,
    TerminationCause,
    UserName,
    VendorId,
    VendorSpecificApplicationId,
}

#[derive(Clone, Copy, Debug, PartialEq, Eq)]
pub struct Attribute {
    /// Value of the code in AVP header
    pub raw: u32,
    /// Attribute name associated with raw value
    pub code: AttributeCode,
}

#[tactic(auto, using(std::proofs::lemmas::Bool::Decides::nat_tests))]
impl Attribute {
    /// The attribute by the Rust's names, in which Destination-Realm is 235. `read` has those of a reading.
    pub fn new(val: u32) -> Self
        ensures { result ≡ attribute_of val }
    {
        let code = match val {
            85 => AttributeCode::AcctInterimInterval,
            483 => AttributeCode::AccountingRealtimeRequired,
            50 => AttributeCode::AcctMultiSessionId,
            485 => AttributeCode::AccountingRecordNumber,
            480 => AttributeCode::AccountingRecordType,
            44 => AttributeCode::AcctSessionId,
            287 => AttributeCode::AccountingSubSessionId,
            259 => AttributeCode::AcctApplicationId,
            258 => AttributeCode::AuthApplicationId,
            274 => AttributeCode::AuthRequestType,
            291 => AttributeCode::AuthorizationLifetime,
            276 => AttributeCode::AuthGracePeriod,
            277 => AttributeCode::AuthSessionState,
            285 => AttributeCode::ReAuthRequestType,
            25 => AttributeCode::Class,
            293 => AttributeCode::DestinationHost,
            235 => AttributeCode::DestinationRealm,
            273 => AttributeCode::DisconnectCause,
            281 => AttributeCode::ErrorMessage,
            294 => AttributeCode::ErrorReportingHost,
            55 => AttributeCode::EventTimestamp,
            297 => AttributeCode::ExperimentalResult,
            298 => AttributeCode::ExperimentalResultCode,
            279 => AttributeCode::FailedAVP,
            267 => AttributeCode::FirmwareRevision,
            257 => AttributeCode::HostIPAddress,
            299 => AttributeCode::InbandSecurityId,
            272 => AttributeCode::MultiRoundTimeOut,
            264 => AttributeCode::OriginHost,
            296 => AttributeCode::OriginRealm,
            278 => AttributeCode::OriginStateId,
            269 => AttributeCode::ProductName,
            280 => AttributeCode::ProxyHost,
            284 => AttributeCode::ProxyInfo,
            33 => AttributeCode::ProxyState,
            292 => AttributeCode::RedirectHost,
            261 => AttributeCode::RedirectHostUsage,
            262 => AttributeCode::RedirectMaxCacheTime,
            268 => AttributeCode::ResultCode,
            282 => AttributeCode::RouteRecord,
            263 => AttributeCode::SessionId,
            27 => AttributeCode::SessionTimeout,
            270 => AttributeCode::SessionBinding,
            271 => AttributeCode::SessionServerFailover,
            265 => AttributeCode::SupportedVendorId,
            295 => AttributeCode::TerminationCause,
            1 => AttributeCode::UserName,
            266 => AttributeCode::VendorId,
            260 => AttributeCode::VendorSpecificApplicationId,
            _ => AttributeCode::Unknown,
        };
        Attribute { raw: val, code }
    }

    /// The attribute in a reading: Destination-Realm is 235 in the Rust and 283 in the RFC.
    pub fn read(reading: Reading, val: u32) -> Self
        ensures { result ≡ attribute_in reading val }
    {
        match (reading, val) {
            (Reading::Rfc, DESTINATION_REALM) => Attribute {
                raw: val,
                code: AttributeCode::DestinationRealm,
            },
            (Reading::Rfc, SAWP_DESTINATION_REALM) => Attribute {
                raw: val,
                code: AttributeCode::Unknown,
            },
            _ => Attribute::new(val),
        }
    }
}

/// The kinds of the codes 0 to 511 in a reading, where no vendor counts.
pub fn kind_table(reading: Reading) -> [u8; CODES]
    ensures { result ≡ kind_table reading }
{
    match reading {
        Reading::Sawp => KINDS,
        Reading::Rfc => {
            let mut kinds = KINDS;
            kinds[CLASS as usize] = OCTET_STRING;
            kinds[SAWP_DESTINATION_REALM as usize] = UNHANDLED;
            kinds[DESTINATION_REALM as usize] = DIAMETER_IDENTITY;
            kinds
        }
    }
}

// A number that is no kind counts as Unhandled.
fn known(kind: u8) -> u8
    ensures { result ≡ known kind }
{
    if kind <= TIME { kind } else { UNHANDLED }
}

impl Dictionary<'_> {
    // The entry of a code in the table; past it a code is Unhandled.
    fn entry(self, code: u32) -> u8
        ensures { result ≡ known (get_or self.entry.kinds.now code unhandled) }
    {
        match self.kinds.get(code as usize) {
            Some(kind) => known(*kind),
            None => UNHANDLED,
        }
    }

    /// The kind of an AVP by its code and vendor, which is 0 without the vendor bit.
    #[tactic(auto, unfolding(crate::specs::ByTable::dictionary_of, crate::specs::ByTable::kind_by))]
    pub fn kind(self, code: u32, vendor: u32) -> u8
        ensures { result ≡ (dictionary_of self.entry).kind code vendor }
    {
        if vendor == 0 || !self.vendors {
            self.entry(code)
        } else {
            UNHANDLED
        }
    }
}
