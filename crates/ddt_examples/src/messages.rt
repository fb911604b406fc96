//! Messages in hexadecimal, field by field (RFC 8111, section 6.4; RFC 9301, sections 5.2, 5.4 and 5.8).

/// The root's NODE-REFERRAL to 10.0.0.0/8 at 127.0.0.10, nonce 1.
pub const ROOT_REFERS_TO_TEN: &str =
    "60000001 0000000000000001 000005a0 01 08 1000 0000 0001 0a000000 01 64 ff 00 0001 0001 7f00000a";

/// The root's hole of the instances from 2147483648 on, nonce 1.
pub const HOLE_OF_INSTANCES: &str =
    "60000001 0000000000000001 0000000f 00 00 9000 0000 4003 0000 02 01 0006 80000000 0000";

/// The same, with each ignored bit set.
pub const HOLE_WITH_IGNORED_BITS: &str =
    "6fffff01 0000000000000001 0000000f 00 4d 87ff 0abc 4003 55aa 02 01 0006 80000000 0000";

/// A lone root's hole of everything, nonce 1.
pub const HOLE_OF_EVERYTHING: &str =
    "60000001 0000000000000001 0000000f 00 00 9000 0000 4003 0000 02 00 0006 00000000 0000";

/// The root's hole of all IPv6 addresses, nonce 2.
pub const HOLE_OF_IPV6: &str =
    "60000001 0000000000000002 0000000f 00 00 9000 0000 0002 00000000000000000000000000000000";

/// The NOT-AUTHORITATIVE of group `ten` for 11.0.0.1, nonce 1.
pub const TEN_IS_NOT_IN_CHARGE: &str =
    "60000001 0000000000000001 00000000 00 20 b800 0000 0001 0b000001";

/// The MS-ACK of group `east` for the site 10.1.2.0/24, nonce 1.
pub const EAST_ACKNOWLEDGES: &str =
    "60000001 0000000000000001 000005a0 02 18 5000 0000 0001 0a010200 01 64 ff 00 0001 0001 7f000101 01 64 ff 00 0001 0001 7f000102";

/// The MS-NOT-REGISTERED of group `east` for the site 10.1.4.0/24, nonce 1.
pub const EAST_HAS_NO_ETR: &str =
    "60000001 0000000000000001 00000001 02 18 7000 0000 0001 0a010400 01 64 ff 00 0001 0001 7f000101 01 64 ff 00 0001 0001 7f000102";

/// A DDT Map-Request of 127.0.0.53 for 10.1.2.3, nonce 1.
pub const DDT_REQUEST: &str =
    "84000000 45 00 0038 0000 0000 40 11 ef7c 7f000035 0a010203 10f6 10f6 0024 b723 10000001 0000000000000001 0000 0001 7f000035 00 20 0001 0a010203";

/// A DDT Map-Request of 127.0.0.53 for 2001:db8::1, nonce 2.
pub const IPV6_REQUEST: &str =
    "84000000 60000000 0030 11 40 00000000000000000000000000000000 20010db8000000000000000000000001 10f6 10f6 0030 f272 10000001 0000000000000002 0000 0001 7f000035 00 80 0002 20010db8000000000000000000000001";

/// The request of an ITR, 127.0.0.60, for 10.2.0.1, with a source EID and no UDP checksum.
pub const ITR_REQUEST: &str =
    "80000000 45 00 003c 0000 0000 40 11 f172 7f00003c 0a020001 c350 10f6 0028 0000 10000001 1122334455667788 0001 0a050001 0001 7f00003c 00 20 0001 0a020001";

/// A request of the same ITR in a form that we don't write. It has options behind the IPv4 header and the bit M. One
/// more byte at the end makes the length odd. The source EID is of instance 7, and the ITR-RLOCs are of two families.
pub const ITR_REQUEST_IN_ANOTHER_FORM: &str =
    "80000000 46 00 005f 0000 0000 40 11 ee4e 7f00003c 0a020001 01010100 c350 10f6 0047 ce16 14000101 1122334455667788 4003 0000 02 00 000a 00000007 0001 0a050001 0001 7f00003c 0002 20010db8000000000000000000000035 00 20 0001 0a020001 aa";

/// The negative Map-Reply to the ITR's request: the hole of 10.2.0.0/15, for fifteen minutes (RFC 9301, section 5.4).
pub const NEGATIVE_REPLY: &str = "20000001 1122334455667788 0000000f 00 0f 2000 0000 0001 0a020000";

/// The same, with each ignored bit set, those of the address among them.
pub const NEGATIVE_REPLY_WITH_IGNORED_BITS: &str =
    "2fffff01 1122334455667788 0000000f 00 0f 3fff ffff 0001 0a03ffff";

/// A negative Map-Reply of the instances from 2147483648 on.
pub const NEGATIVE_REPLY_OF_INSTANCES: &str =
    "20000001 1122334455667788 0000000f 00 00 2000 0000 4003 0000 02 01 0006 80000000 0000";

/// A negative Map-Reply of all IPv6 addresses of instance 7.
pub const NEGATIVE_REPLY_OF_INSTANCE_7: &str =
    "20000001 1122334455667788 0000000f 00 00 2000 0000 4003 0000 02 00 0016 00000007 0002 00000000000000000000000000000000";

/// The negative Map-Reply of 10.1.4.0/24, nonce 7, for one minute (RFC 9301, section 5.4).
pub const NOT_REGISTERED_REPLY: &str =
    "20000001 0000000000000007 00000001 00 18 2000 0000 0001 0a010400";
