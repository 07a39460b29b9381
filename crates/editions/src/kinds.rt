// The kinds of the credit-control codes: two blocks, each from its first code on.
use record::kinds::{
    ADDRESS, ENUMERATED, GROUPED, INTEGER32, INTEGER64, OCTET_STRING, TIME, UNSIGNED32, UNSIGNED64,
    UTF8_STRING,
};

// RFC 4006 and RFC 8506, section 8: the codes 411 to 461.
pub const FIRST: usize = 411;

pub const KINDS: [u8; 51] = [
    OCTET_STRING, // 411 CC-Correlation-Id
    UNSIGNED64, // 412 CC-Input-Octets
    GROUPED, // 413 CC-Money
    UNSIGNED64, // 414 CC-Output-Octets
    UNSIGNED32, // 415 CC-Request-Number
    ENUMERATED, // 416 CC-Request-Type
    UNSIGNED64, // 417 CC-Service-Specific-Units
    ENUMERATED, // 418 CC-Session-Failover
    UNSIGNED64, // 419 CC-Sub-Session-Id
    UNSIGNED32, // 420 CC-Time
    UNSIGNED64, // 421 CC-Total-Octets
    ENUMERATED, // 422 Check-Balance-Result
    GROUPED, // 423 Cost-Information
    UTF8_STRING, // 424 Cost-Unit
    UNSIGNED32, // 425 Currency-Code
    ENUMERATED, // 426 Credit-Control
    ENUMERATED, // 427 Credit-Control-Failure-Handling
    ENUMERATED, // 428 Direct-Debiting-Failure-Handling
    INTEGER32, // 429 Exponent
    GROUPED, // 430 Final-Unit-Indication
    GROUPED, // 431 Granted-Service-Unit
    UNSIGNED32, // 432 Rating-Group
    ENUMERATED, // 433 Redirect-Address-Type
    GROUPED, // 434 Redirect-Server
    UTF8_STRING, // 435 Redirect-Server-Address
    ENUMERATED, // 436 Requested-Action
    GROUPED, // 437 Requested-Service-Unit
    OCTET_STRING, // 438 Restriction-Filter-Rule
    UNSIGNED32, // 439 Service-Identifier
    GROUPED, // 440 Service-Parameter-Info
    UNSIGNED32, // 441 Service-Parameter-Type
    OCTET_STRING, // 442 Service-Parameter-Value
    GROUPED, // 443 Subscription-Id
    UTF8_STRING, // 444 Subscription-Id-Data
    GROUPED, // 445 Unit-Value
    GROUPED, // 446 Used-Service-Unit
    INTEGER64, // 447 Value-Digits
    UNSIGNED32, // 448 Validity-Time
    ENUMERATED, // 449 Final-Unit-Action
    ENUMERATED, // 450 Subscription-Id-Type
    TIME, // 451 Tariff-Time-Change
    ENUMERATED, // 452 Tariff-Change-Usage
    UNSIGNED32, // 453 G-S-U-Pool-Identifier
    ENUMERATED, // 454 CC-Unit-Type
    ENUMERATED, // 455 Multiple-Services-Indicator
    GROUPED, // 456 Multiple-Services-Credit-Control
    GROUPED, // 457 G-S-U-Pool-Reference
    GROUPED, // 458 User-Equipment-Info
    ENUMERATED, // 459 User-Equipment-Info-Type
    OCTET_STRING, // 460 User-Equipment-Info-Value
    UTF8_STRING, // 461 Service-Context-Id
];

// RFC 8506, section 8: the codes 653 to 669, which it added.
pub const ADDED_FIRST: usize = 653;

pub const ADDED: [u8; 17] = [
    GROUPED, // 653 User-Equipment-Info-Extension
    OCTET_STRING, // 654 User-Equipment-Info-IMEISV
    OCTET_STRING, // 655 User-Equipment-Info-MAC
    OCTET_STRING, // 656 User-Equipment-Info-EUI64
    OCTET_STRING, // 657 User-Equipment-Info-ModifiedEUI64
    OCTET_STRING, // 658 User-Equipment-Info-IMEI
    GROUPED, // 659 Subscription-Id-Extension
    UTF8_STRING, // 660 Subscription-Id-E164
    UTF8_STRING, // 661 Subscription-Id-IMSI
    UTF8_STRING, // 662 Subscription-Id-SIP-URI
    UTF8_STRING, // 663 Subscription-Id-NAI
    UTF8_STRING, // 664 Subscription-Id-Private
    GROUPED, // 665 Redirect-Server-Extension
    ADDRESS, // 666 Redirect-Address-IPAddress
    UTF8_STRING, // 667 Redirect-Address-URL
    UTF8_STRING, // 668 Redirect-Address-SIP-URI
    GROUPED, // 669 QoS-Final-Unit-Indication
];
