//! The Map-Notify that acknowledges a Map-Register (RFC 9301, section 5.7).
//!
//! ```text
//!  0        1        2        3
//! +----+---------------------+--------+
//! |  4 |      reserved       | count  |   0
//! +----+---------------------+--------+
//! |              nonce                |   4
//! |                                   |   8
//! +--------+--------+-----------------+
//! | Key ID |algo-   | length of the   |  12
//! |        |rithm ID| auth. data      |
//! +--------+--------+-----------------+
//! |  authentication data, then the    |  16
//! |  records of the Map-Register ..   |
//! ```

ghost use Rattle.std.specs.Prelude.{◌≡◌, ◌++◌, ◌≤◌, IfOk, IsTrue, OnOk, replicate};
ghost use Rattle.ddt_map_register.specs.Authentic.{code_of, is_known};
ghost use Rattle.ddt_map_register.specs.MapNotify.{notify_head, notify_of};

use crate::authentication::{SHA256_128, sha1_code, sha256_code, zeros};
use crate::register_head::RegisterHead;
use ddt_wire::TYPE_SHIFT;
use std::alloc::{AllocError, Global};

/// The type of a Map-Notify.
const MAP_NOTIFY: u8 = 4;

/// The bytes before the authentication data.
fn notify_front(alloc: Global, head: &RegisterHead) -> Result<Vec<u8>, AllocError>
    ensures { IfOk result (λ bytes. bytes.items ≡ notify_head head.now) }
{
    let mut bytes = Vec::new(alloc);
    bytes.extend_from_slice(&[MAP_NOTIFY << TYPE_SHIFT, 0, 0, head.count])?;
    bytes.extend_from_slice(&head.nonce.to_be_bytes())?;
    bytes.extend_from_slice(&[head.key_id, head.algorithm])?;
    bytes.extend_from_slice(&head.code_len.to_be_bytes())?;
    Ok(bytes)
}

/// Appends the code of a message whose last part is given, cut to this length, by Algorithm ID 2 or 1.
fn put_code(
    bytes: &mut Vec<u8>,
    algorithm: u8,
    len: usize,
    secret: &[u8],
    after: &[u8],
) -> Result<(), AllocError>
    requires { len ≤ 20 }
    ensures { OnOk result (bytes.new.items
        ≡ bytes.old.items ++ code_of algorithm len secret.now (bytes.old.items ++ replicate len 0 ++ after.now)) }
{
    if algorithm == SHA256_128 {
        let code = sha256_code(secret, bytes.as_slice(), zeros(len), after);
        bytes.extend_from_slice(&code[..len])
    } else {
        let code = sha1_code(secret, bytes.as_slice(), zeros(len), after);
        bytes.extend_from_slice(&code[..len])
    }
}

/// The Map-Notify that acknowledges a Map-Register with this head and the bytes of these records. It has a code of its
/// own under the secret, by the same algorithm and of the same length. Fails only if out of memory.
pub fn write_notify(
    alloc: Global,
    head: &RegisterHead,
    secret: &[u8],
    records: &[u8],
) -> Result<Vec<u8>, AllocError>
    requires { IsTrue (is_known head.now.algorithm head.now.code_len) }
    ensures { IfOk result (λ bytes. bytes.items ≡ notify_of head.now secret.now records.now) }
{
    let mut bytes = notify_front(alloc, head)?;
    put_code(
        &mut bytes,
        head.algorithm,
        head.code_len as usize,
        secret,
        records,
    )?;
    bytes.extend_from_slice(records)?;
    Ok(bytes)
}
