//! Messages of an independent implementation, openoverlayrouter 1.3.0, as it sent them in a tree with this project's
//! programs: in hexadecimal, field by field, without their outer headers. The root is 192.0.2.3, the node 192.0.2.4, the
//! Map-Server 192.0.2.5.

/// An xTR's Encapsulated Map-Request for 10.1.10.9, from the EID 10.1.9.9 of its site.
pub const XTR_REQUEST: &str =
    "80000000 45 00 003c 0005 4000 ff 11 5498 0a010909 0a010a09 10f6 10f6 0028 4b62 10000001 7eb98f6f328d3146 0001 0a010909 0001 c0000207 00 20 0001 0a010a09";

/// What the same xTR sends its Map-Resolver after an SMR: the bit s is set, and it is for the prefix 10.1.10.0/24
/// (RFC 9301, section 6.1).
pub const XTR_SMR_INVOKED_REQUEST: &str =
    "80000000 45 00 003c 000c 4000 ff 11 54a3 0a010900 0a010a00 10f6 10f6 0028 6320 10400001 7bab9f6f1b95237a 0001 0a010900 0001 c0000207 00 18 0001 0a010a00";

/// A DDT Map-Request of a DDT Map-Resolver, 192.0.2.2, for 10.1.2.3: with a nonce of its own, and the source EID and
/// the ITR-RLOC of the ITR, 192.0.2.1.
pub const RESOLVER_REQUEST: &str =
    "84000000 45 00 003c 0001 4000 ff 11 adaa c0000201 0a010203 10f6 10f6 0028 70a7 10000001 dd9a0b6b320898c9 0001 0a010303 0001 c0000201 00 20 0001 0a010203";

/// The same for 2001:db8:a:1::5, without a source EID.
pub const RESOLVER_IPV6_REQUEST: &str =
    "84000000 60000000 0030 11 ff 20010db8000000000000000000000001 20010db8000a00010000000000000005 10f6 10f6 0030 1e88 10000001 75aa0e6f350daa21 0000 0001 c0000201 00 80 0002 20010db8000a00010000000000000005";

/// The ITR's own Map-Request, which that Map-Resolver sends the Map-Server after its MS-ACK: the bit D is clear, and the
/// nonce is the ITR's.
pub const RESOLVER_FORWARDS: &str =
    "80000000 45 00 003c 0007 4000 ff 11 ada4 c0000201 0a010203 10f6 10f6 0028 9765 10000001 c8416f9b31d1236b 0001 0a010303 0001 c0000201 00 20 0001 0a010203";

/// A DDT node's NODE-REFERRAL to 10.0.0.0/8: its locators have the priority and the weight 0.
pub const NODE_REFERS_TO_NODE: &str =
    "60000001 337e1aaa1484e1e0 000005a0 02 08 1000 0000 0001 0a000000 00 00 00 00 0001 0001 c0000204 00 00 00 00 0001 0002 20010db8000000000000000000000004";

/// Its MS-REFERRAL to 10.1.0.0/16 of instance 7.
pub const NODE_REFERS_TO_MAP_SERVER: &str =
    "60000001 1a20d0ede8496ec0 000005a0 02 10 3000 0000 4003 0000 02 20 000a 00000007 0001 0a010000 00 00 00 00 0001 0001 c0000205 00 00 00 00 0001 0002 20010db8000000000000000000000005";

/// Its DELEGATION-HOLE for 11.0.0.1.
pub const NODE_HAS_A_HOLE: &str =
    "60000001 0e36e90d78afd715 0000000f 00 08 9000 0000 0001 0b000000";

/// Its DELEGATION-HOLE for 10.2.0.1: the prefix, 11.2.0.0/15, doesn't hold that identifier.
pub const NODE_HAS_A_WRONG_HOLE: &str =
    "60000001 689da350d1ef0cdd 0000000f 00 0f 9000 0000 0001 0b020000";

/// A Map-Server's MS-ACK for the site 10.1.2.0/24.
pub const MAP_SERVER_ACKNOWLEDGES: &str =
    "60000001 774d60037f5fb47b 000005a0 01 18 5000 0000 0001 0a010200 00 00 00 00 0005 0001 c0000205";

/// The same of a Map-Server that doesn't know its peers, so that the bit I is set (RFC 8111, section 6.3).
pub const MAP_SERVER_ACKNOWLEDGES_INCOMPLETE: &str =
    "60000001 2a0d796c1fe1f634 000005a0 01 18 5800 0000 0001 0a010200 00 00 00 00 0005 0001 c0000205";

/// Its MS-NOT-REGISTERED for the site 10.1.4.0/24: Incomplete, and for 15 minutes.
pub const MAP_SERVER_HAS_NO_ETR: &str =
    "60000001 39ec8ebd5a31ee32 0000000f 01 18 7800 0000 0001 0a010400 00 00 00 00 0005 0001 c0000205";

/// A Map-Server's NOT-AUTHORITATIVE for 10.1.77.1, which its zone covers and no site of it.
pub const MAP_SERVER_IS_NOT_IN_CHARGE: &str =
    "60000001 0ed01768a6fc9bbb 00000000 00 20 a800 0000 0001 0a014d01";

/// An xTR's Map-Register of 10.1.9.0/24, authenticated by HMAC-SHA-1 with the key `password` (RFC 9301, section 5.6).
pub const XTR_REGISTER: &str =
    "30000101 7f899a6b309a0873 00 01 0014 fdea9319f6228792d6dd54a58165d53344eeae2e 0000000a 01 18 1000 0000 0001 0a010900 01 64 ff 00 0005 0001 c0000207";

/// A Map-Server's Map-Notify to another Map-Register of that site, by the same key (RFC 9301, section 5.7).
pub const MAP_SERVER_NOTIFIES: &str =
    "40000001 feff3a7bb830ffb2 00 01 0014 779c8c5ae4d2f71d6e070bab711a6cf49f4cf997 0000000a 01 18 1000 0000 0001 0a010900 01 64 ff 00 0001 0001 c0000207";

/// An xTR's Map-Reply for its site (RFC 9301, section 5.4).
pub const XTR_REPLY: &str =
    "20000001 192482f9d668cecc 0000000a 01 18 1000 0000 0001 0a010900 01 64 ff 00 0005 0001 c0000207";

/// A Map-Resolver's negative Map-Reply for 10.1.4.0/24, which is not registered: ACT is 0, no action.
pub const RESOLVER_NEGATIVE_REPLY: &str =
    "20000001 1c3461eb125413a4 0000000f 00 18 0000 0000 0001 0a010400";

/// What an xTR at 192.0.2.11 sends its Map-Server each minute for its site 10.1.1.0/24, under the secret `password`: its
/// Key ID is 0, it has no xTR-ID, nonces are random, and the code of Algorithm ID 1 has all 20 bytes.
pub const XTR_NOTIFIED_REGISTER: &str =
    "30000101 fffbdb7bced3d06b 00 01 0014 245bb8d6adbc0a902dbd17514d6a584b0f6ca79c 0000000a 01 18 1000 0000 0001 0a010100 01 64 ff 00 0005 0001 c000020b";

/// A Map-Notify that it takes for that, after which it waits for a minute.
pub const XTR_NOTIFY: &str =
    "40000001 fffbdb7bced3d06b 00 01 0014 cfa1600f4040d6ef86b84a09c2f1472329ffda32 0000000a 01 18 1000 0000 0001 0a010100 01 64 ff 00 0005 0001 c000020b";

/// The same for its site 2001:db8:a:1::/64.
pub const XTR_IPV6_REGISTER: &str =
    "30000101 dffbdb7bced9e9cd 00 01 0014 9987254ba312c4a14625d8876f242570ad74a8bb 0000000a 01 40 1000 0000 0002 20010db8000a00010000000000000000 01 64 ff 00 0005 0001 c000020b";

/// The same where the site is in instance 7.
pub const XTR_INSTANCE_REGISTER: &str =
    "30000101 d7bbbf7bceb513c1 00 01 0014 f4ff0bbfcce19cc52526e9a3508b714a6e929d27 0000000a 01 18 1000 0000 4003 0000 02 20 000a 00000007 0001 0a010100 01 64 ff 00 0005 0001 c000020b";

/// The same with a second locator, 2001:db8::11.
pub const XTR_TWO_LOCATORS_REGISTER: &str =
    "30000101 d7ffee6bdde6ef11 00 01 0014 14d4d73b4a97ff89ca9c56ebbadcbd2ef968c918 0000000a 02 18 1000 0000 0001 0a010100 01 64 ff 00 0005 0001 c000020b 01 32 ff 00 0005 0002 20010db8000000000000000000000011";
