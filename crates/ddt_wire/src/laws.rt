//! What holds of every list of bytes and every value, whichever way they are read and written: each function here is a
//! law of the definitions, and does nothing.

ghost use Rattle.std.specs.Prelude.{ℕ, ◌≤◌, ◌≡◌, ◌↔◌, List, ◌++◌, length, take, Ok};
ghost use Rattle.std.specs.Result.{IsErr};
ghost use Rattle.ddt_path.specs.declared.record.ReferralRecord.{ReferralRecord};
ghost use Rattle.ddt_path.specs.Reader.{AreRead};
ghost use Rattle.ddt_path.specs.Steps.{IsBytes};
ghost use Rattle.ddt_wire.specs.Eid.{SpellsEid, written_eid, written_mask_len, eid_at};
ghost use Rattle.ddt_wire.specs.laws.Statements.{IsPrefix, IsRecord, MessagesAreRead, RecordsComeBack, IsReply};
ghost use Rattle.ddt_wire.specs.Referral.{Spells, message_of, written};
ghost use Rattle.ddt_wire.specs.NegativeReply.{SpellsReply, written_reply, reply_in};

/// What spells a Map-Referral is read as it, and what is read is spelled; bytes spell one at most, only bytes spell,
/// and a fault exists if and only if they spell none. What is written for a nonce and a record spells them, and a
/// record of at most eight servers comes back from its message.
pub fn referral_laws()
    ensures read { MessagesAreRead }
    ensures written { (nonce : ℕ) (r : ReferralRecord) → IsRecord nonce r
        → Spells (written nonce r) (message_of nonce r) }
    ensures back { RecordsComeBack }
{}

/// The same of a negative Map-Reply, which is written for a nonce, a TTL and a prefix.
pub fn reply_laws()
    ensures read { AreRead IsBytes SpellsReply reply_in }
    ensures written { (v : _) → IsReply v → SpellsReply (written_reply v) v }
{}

/// The same of an EID beside its mask length.
pub fn eid_laws()
    // Bytes spell one at most,
    ensures one { (mask : ℕ) (bytes p q : List ℕ) → SpellsEid mask bytes p → SpellsEid mask bytes q → p ≡ q }
    // and only bytes do.
    ensures bytes { (mask : ℕ) (bytes p : List ℕ) → SpellsEid mask bytes p → IsBytes bytes }
    // What is spelled is read, whatever follows it,
    ensures read { (mask : ℕ) (eid p rest : List ℕ) → SpellsEid mask eid p
        → eid_at mask (eid ++ rest) ≡ Ok (p, length eid) }
    // and what is read is spelled by the front of the bytes.
    ensures taken { (mask : ℕ) (bytes p : List ℕ) (taken : ℕ) → IsBytes bytes → eid_at mask bytes ≡ Ok (p, taken)
        → SpellsEid mask (take taken bytes) p × (taken ≤ length bytes) }
    // There is a fault if and only if no front of the bytes spells a prefix.
    ensures faults { (mask : ℕ) (bytes : List ℕ) → IsBytes bytes
        → IsErr (eid_at mask bytes) ↔ ((eid rest p : List ℕ) → SpellsEid mask eid p → bytes ≡ eid ++ rest → ⊥) }
    // What is written spells the prefix.
    ensures written { (p : List ℕ) → IsPrefix p → SpellsEid (written_mask_len p) (written_eid p) p }
{}
