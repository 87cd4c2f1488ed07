// One message: its head, its actor and its record, for every kind alike.
ghost use Rattle.std.specs.Prelude.{◌≡◌, ℕ, ◌+◌, ◌-◌, ◌*◌, ◌/◌, ◌%◌, ◌^◌, ◌<◌, ◌≤◌, true, List, [], ◌∷◌, ◌++◌, length, drop, OnOk, slice_range};
ghost use Rattle.kind.specs.Layout.{Distinct, Layout, Lawful, ReadsBack, data_of, message_of, padded, read_of, write_of, written_of, Whole};

use fault::{CallFault, Fault, MessageFault};

/// A kind of message: its MessageID, its MessageLength, the actors that it admits, and its data.
pub trait Kind {
    /// The MessageID by which the kind is known.
    const ID: u8;

    ghost ID: { ℕ };

    /// The MessageLength in bytes, which counts the whole message.
    const LEN: u8;

    ghost LEN: { ℕ };

    /// What a message of this kind says.
    type Record: Copy;

    ghost layout: { Layout Self.Record };

    /// Whether a message of this kind may name the actor.
    fn admits(actor: u16) -> bool
        ensures { result ≡ layout.admits actor };

    /// The record in a message's data, if that has LEN - 4 bytes.
    fn decode(data: &[u8]) -> Option<Self::Record>
        ensures { result ≡ data_of layout «data».now };

    /// A message's data: the first LEN - 4 bytes of these, and zeros. Four for every kind, since no array's length can be computed from LEN.
    fn encode(record: Self::Record) -> [u8; 4]
        ensures { result ≡ padded (layout.encode «record») };

    // The constants are the layout's.
    ghost ident: { ID ≡ layout.ident };

    ghost sized: { LEN ≡ layout.size };

    ghost lawful: { Lawful layout };
}

/// Reads the message that begins `bytes` as one of kind K: its actor and its record, or `None` where it has another MessageID.
/// `bytes` is what is left of a payload, from `place` on, and each refusal is told at that place: 7 where no whole message begins there, 8 where the message
/// has the kind's MessageID and another MessageLength, 9 where the kind does not admit its actor.
// Inlined, so that a reader of all kinds looks at the head of a message once.
#[inline(always)]
pub fn read<K: Kind>(bytes: &[u8], place: usize) -> Result<Option<(u16, K::Record)>, Fault>
    ensures answer { result ≡ read_of K.layout bytes.now place }
    ensures whole { OnOk result (Whole bytes.now) }
{
    let [len, id, lo, hi, rest @ ..] = bytes else {
        return Err(Fault::Message(MessageFault::Broken, place));
    };
    if *len < 4 || *len as usize > bytes.len() {
        return Err(Fault::Message(MessageFault::Broken, place));
    }
    if *id != K::ID {
        return Ok(None);
    }
    if *len != K::LEN {
        return Err(Fault::Message(MessageFault::KindLength, place));
    }
    let actor = u16::from_le_bytes([*lo, *hi]);
    if !K::admits(actor) {
        return Err(Fault::Message(MessageFault::ActorRule, place));
    }
    let record = K::decode(&rest[..K::LEN as usize - 4]).unwrap();
    Ok(Some((actor, record)))
}

// Lays the message over the front of `out`, which has room for it.
fn lay<K: Kind>(out: &mut [u8], actor: u16, record: K::Record)
    requires room { K.layout.size ≤ length out.old }
    requires admitted { K.layout.admits actor ≡ true }
    ensures bytes { out.new ≡ message_of K.layout actor «record» ++ drop K.layout.size out.old }
    ensures back { ReadsBack K.layout actor «record» out.new }
{
    let size = K::LEN as usize;
    let [lo, hi] = actor.to_le_bytes();
    let data = K::encode(record);
    out[0..4].copy_from_slice(&[K::LEN, K::ID, lo, hi]);
    out[4..size].copy_from_slice(&data[0..size - 4]);
}

/// Writes a message of kind K at the front of `out`, and tells its length in bytes. What lies behind it stays.
/// Refused with 9 where the kind does not admit the actor, then with 20 where `out` is too short, both at 0; then `out` stays as it was.
pub fn write<K: Kind>(out: &mut [u8], actor: u16, record: K::Record) -> Result<usize, Fault>
    ensures answer { result ≡ write_of K.layout actor out.old }
    ensures bytes { out.new ≡ written_of K.layout actor «record» out.old }
    ensures back { OnOk result (ReadsBack K.layout actor «record» out.new) }
{
    if !K::admits(actor) {
        return Err(Fault::Message(MessageFault::ActorRule, 0));
    }
    let size = K::LEN as usize;
    if out.len() < size {
        return Err(Fault::Call(CallFault::ShortBuffer, 0));
    }
    lay::<K>(out, actor, record);
    Ok(size)
}

/// Nothing runs here: it states that a message written as one kind is none of a kind with another MessageID.
#[tactic(auto, using(crate::proofs::Messages::distinct))]
pub fn kinds_are_distinct<K: Kind, L: Kind>()
    ensures { Distinct K.layout L.layout }
{}
