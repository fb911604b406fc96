//! Map-Registers and the Map-Notifies that acknowledge them, in hexadecimal, field by field (RFC 9301, sections 5.6 and
//! 5.7). Their codes were made by another program, under the secret `password`.

/// A Map-Register of 10.1.2.0/24 at 127.0.2.1, with xTR-ID and Site-ID: it wants a Map-Notify, and has a code
/// of 16 bytes by Algorithm ID 2.
pub const IPV4_REGISTER: &str =
    "32000101 0000000000000001 01 02 0010 9108597155110e08cc2a990509900e34 000005a0 01 18 1000 0000 0001 0a010200 01 64 ff 00 0005 0001 7f000201 0102030405060708090a0b0c0d0e0f10 0000000000000007";

/// The Map-Notify that acknowledges it.
pub const IPV4_NOTIFY: &str =
    "40000001 0000000000000001 01 02 0010 7a78dc84d1734dab2224609246c2d468 000005a0 01 18 1000 0000 0001 0a010200 01 64 ff 00 0005 0001 7f000201";

/// A Map-Register of two records, by Algorithm ID 1 with all 20 bytes of the code: 10.1.2.0/24 at an LCAF of type 11 and
/// at 127.0.2.2, and 2001:db8::/64 without a locator.
pub const TWO_RECORDS_REGISTER: &str =
    "30000002 dddaff6b47f158d8 07 01 0014 1d849f0cab164932318511d56a2e0800ea4b0202 000005a0 02 18 1000 0000 0001 0a010200 01 64 ff 00 0005 4003 0000 0b 00 0006 aabbccddeeff 02 32 ff 00 0001 0001 7f000202 0000003c 00 40 3000 0000 0002 20010db8000000000000000000000000";

/// The Map-Notify that acknowledges it.
pub const TWO_RECORDS_NOTIFY: &str =
    "40000002 dddaff6b47f158d8 07 01 0014 17b9e1ee820646466b5edc5f83344dce2ad7c702 000005a0 02 18 1000 0000 0001 0a010200 01 64 ff 00 0005 4003 0000 0b 00 0006 aabbccddeeff 02 32 ff 00 0001 0001 7f000202 0000003c 00 40 3000 0000 0002 20010db8000000000000000000000000";

/// A Map-Register of 2001:db8:a::/48 in instance 7 at 2001:db8::201, which is to last for its TTL of five minutes: a code
/// of 12 bytes by Algorithm ID 1.
pub const INSTANCE_REGISTER: &str =
    "30000901 0000000000000002 03 01 000c d5876be7c336093e60a13091 00000005 01 30 1000 0000 4003 0000 02 00 0016 00000007 0002 20010db8000a00000000000000000000 05 64 ff 00 0005 0002 20010db8000000000000000000000201";

/// The Map-Notify that acknowledges it.
pub const INSTANCE_NOTIFY: &str =
    "40000001 0000000000000002 03 01 000c 92976bcfce3e9fa26d69bf57 00000005 01 30 1000 0000 4003 0000 02 00 0016 00000007 0002 20010db8000a00000000000000000000 05 64 ff 00 0005 0002 20010db8000000000000000000000201";

/// The first xTR ends its registration: the TTL is 0, and there is no locator.
pub const WITHDRAWAL: &str =
    "32000101 0000000000000003 01 02 0010 ee3098f803550b36b5e5e318597ea15e 00000000 00 18 0000 0000 0001 0a010200 0102030405060708090a0b0c0d0e0f10 0000000000000007";

/// The Map-Notify that acknowledges it.
pub const WITHDRAWAL_NOTIFY: &str =
    "40000001 0000000000000003 01 02 0010 9ee742d17d802a88ab1cdeabe327d32f 00000000 00 18 0000 0000 0001 0a010200";
