//! Map-Registers and the Map-Notifies that acknowledge them, beside those of ddt_examples: in hexadecimal, field by
//! field, by an encoder in Python that shares nothing with the crates. The secret is `password`.

/// Of one record, by HMAC-SHA-1 with 12 bytes.
pub const CUT_CODE_REGISTER: &str =
    "30000101 0000000000000002 01 01 000c 6716184081299ac8758a4487 000005a0 01 18 1000 0000 0001 0a010200 01 64 ff 00 0005 0001 7f000201";

/// What acknowledges it.
pub const CUT_CODE_NOTIFY: &str =
    "40000001 0000000000000002 01 01 000c 8afa5006897bad60dc6a193a 000005a0 01 18 1000 0000 0001 0a010200 01 64 ff 00 0005 0001 7f000201";

/// Of no record, by HMAC-SHA-256.
pub const NO_RECORD_REGISTER: &str =
    "30000100 0000000000000003 01 02 0010 871c12868e9f5585193c2d945899a26c";

/// What acknowledges it.
pub const NO_RECORD_NOTIFY: &str =
    "40000000 0000000000000003 01 02 0010 79f81b8eb10c63fe1d70deb4eb37f473";

/// What comes before the records of a Map-Register of 10.0.0.0/16 to 10.254.0.0/16, without locators, by HMAC-SHA-256.
pub const MANY_RECORDS_REGISTER: &str =
    "300001ff 0000000000000004 01 02 0010 727d49dbe9fa30b783d3d86f2ca39904";

/// What comes before the records of what acknowledges it.
pub const MANY_RECORDS_NOTIFY: &str =
    "400000ff 0000000000000004 01 02 0010 f39e140c48a6853bcb53f5fed607c690";
