// Writing a packet for a switch: its outstanding actors in list order, and last its control word.
// A draft and its buffer are passed at each call, and `HasRoom` says what a call needs of the two.
ghost use Rattle.std.specs.Prelude.{◌≡◌, ◌+◌, ◌*◌, ◌≤◌, true, false, [], ◌∷◌, ◌++◌, length, drop, IsOk, if◌then◌else◌, FitsSigned, ◌==◌};
ghost use Rattle.std.specs.Int.{w16};
ghost use Rattle.packet.specs.declared.message.Record.TheVariants.{Control};
ghost use Rattle.packet.specs.Drafts.{RecordFits, added, size_of};
ghost use Rattle.packet.specs.Packets.{packet_bytes};
ghost use Rattle.packet.specs.Words.{major};
ghost use Rattle.model.specs.Composing.{actor_records, item_records, outstanding_actors, records_for, values_of};
ghost use Rattle.model.specs.Marks.{is_outstanding};
ghost use Rattle.switch.specs.Items.{all_named};
ghost use Rattle.hub.specs.Compositions.{packet_length};
ghost use Rattle.hub.specs.Writing.{Began, Finished, HasRoom, Wrote};

use model::{Item, Mark};
use packet::{Descriptor, Draft, Record};
use store::ActorStore;
use switch::Switch;

// Adds a record for which there is room. Inlined, so that its kind is known where it is written.
#[inline(always)]
fn add(draft: Draft, buf: &mut [u8], record: Record) -> Draft
    requires granted { IsOk (added «record» draft buf.old) }
    requires fits { RecordFits «record» }
    ensures { Wrote draft buf.old («record» ∷ []) result buf.new }
{
    draft.add(buf, record).unwrap()
}

// Both values of an actor.
fn values<S: ActorStore>(store: &S, actor: u16) -> (i16, i16)
    ensures answer { result ≡ values_of (S.meaning store.now actor) }
    ensures actual_fits { FitsSigned w16 result.0 }
    ensures target_fits { FitsSigned w16 result.1 }
{
    store.read(actor).unwrap_or((0, 0))
}

// Adds what an actor has to be told: RealValue, then EditValue.
fn write_actor<S: ActorStore>(store: &S, actor: u16, draft: Draft, buf: &mut [u8]) -> Draft
    requires named { (actor == 0) ≡ false }
    requires room { HasRoom draft buf.old 12 }
    ensures { Wrote draft buf.old (actor_records (S.meaning store.now) actor) result buf.new }
{
    let (actual, target) = values(store, actor);
    let draft = add(draft, buf, Record::RealValue { actor, actual });
    add(draft, buf, Record::EditValue { actor, target })
}

// Adds what an item's actor has to be told, if the item is outstanding.
fn write_item<S: ActorStore>(store: &S, item: Item, draft: Draft, buf: &mut [u8]) -> Draft
    requires named { (item.actor == 0) ≡ false }
    requires room { HasRoom draft buf.old (if is_outstanding item.mark then 12 else 0) }
    ensures { Wrote draft buf.old (if is_outstanding item.mark then actor_records (S.meaning store.now) item.actor else []) result buf.new }
{
    if item.mark.is_outstanding() {
        write_actor(store, item.actor, draft, buf)
    } else {
        draft
    }
}

// Adds what the outstanding actors have to be told, in list order.
fn write_items<S: ActorStore>(store: &S, items: &[Item], mut draft: Draft, buf: &mut [u8]) -> Draft
    requires named { all_named items.now ≡ true }
    requires room { HasRoom draft buf.old (12 * outstanding_actors items.now) }
    ensures { Wrote draft buf.old (item_records (S.meaning store.now) items.now) result buf.new }
{
    for item in items {
        draft = write_item(store, *item, draft, buf);
    }
    draft
}

// Adds the control word, if it is outstanding.
fn write_control(mark: Mark, word: u32, draft: Draft, buf: &mut [u8]) -> Draft
    requires room { HasRoom draft buf.old (if is_outstanding mark then 8 else 0) }
    ensures { Wrote draft buf.old (if is_outstanding mark then Control word ∷ [] else []) result buf.new }
{
    if mark.is_outstanding() {
        add(draft, buf, Record::Control(word))
    } else {
        draft
    }
}

// Begins a draft in a buffer that has room for it, with a version that is ours.
fn begin(buf: &mut [u8], words: Descriptor) -> Draft
    requires ours { major words.version ≡ 2 }
    requires room { 16 ≤ length buf.old }
    ensures { Began words buf.old result buf.new }
{
    Draft::begin(buf, words).unwrap()
}

// Closes a draft in its buffer.
fn finish(draft: Draft, buf: &mut [u8])
    requires room { HasRoom draft buf.old 0 }
    ensures { Finished draft buf.old buf.new }
{
    draft.close(buf).unwrap();
}

// Writes the packet for a switch into a buffer that has room for it.
pub(crate) fn write_packet<S: ActorStore>(
    store: &S,
    switch: &Switch,
    words: Descriptor,
    buf: &mut [u8],
)
    requires ours { major words.version ≡ 2 }
    requires room { packet_length switch.now ≤ length buf.old }
    ensures { buf.new ≡ packet_bytes words (records_for (S.meaning store.now) switch.now) ++ drop (packet_length switch.now) buf.old }
{
    let draft = begin(buf, words);
    let draft = write_items(store, switch.items(), draft, buf);
    let draft = write_control(switch.control_mark(), switch.control(), draft, buf);
    finish(draft, buf);
}
