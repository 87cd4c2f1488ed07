// A value that is put into a store, read back: code that knows of the store only what it means, and so holds of every store.
ghost use Rattle.std.specs.Prelude.{◌≡◌};
ghost use Rattle.store.specs.Meaning.{after_put};
ghost use Rattle.worked_stores.specs.ReadBack.{read_back};

use fault::Fault;
use store::{ActorStore, Half};

// Puts one value and answers the pair that the store then has, or the refusal.
pub(crate) fn put_and_read<S: ActorStore>(
    store: &mut S,
    actor: u16,
    half: Half,
    value: i16,
) -> Result<(i16, i16), Fault>
    ensures answer { result ≡ read_back (S.meaning store.old) actor half value }
    ensures after { S.meaning store.new ≡ after_put (S.meaning store.old) actor half value }
{
    store.put(actor, half, value)?;
    store.read(actor)
}
