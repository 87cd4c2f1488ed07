// The items of a switch, as a slice.
ghost use Rattle.std.specs.Prelude.{◌≡◌, false, map};
ghost use Rattle.model.specs.Models.{any_outstanding, moved_item, touched_item};
ghost use Rattle.switch.specs.Items.{actors_of, repeats};

use model::{Change, Item};

// Moves every item.
pub(crate) fn move_all(items: &mut [Item], change: Change)
    ensures { items.new ≡ map (moved_item change) items.old }
{
    for item in items.iter_mut() {
        item.mark.note(change);
    }
}

// The item of this actor, if there is one, becomes due. The first is the only one, so the walk ends there.
pub(crate) fn touch(items: &mut [Item], actor: u16)
    requires { repeats (actors_of items.old) ≡ false }
    ensures { items.new ≡ map (touched_item actor) items.old }
{
    for item in items.iter_mut() {
        if item.actor == actor {
            item.mark.note(Change::Changed);
            return;
        }
    }
}

// Whether any item is outstanding.
pub(crate) fn any_outstanding(items: &[Item]) -> bool
    ensures { result ≡ any_outstanding items.now }
{
    items.iter().any(|item| item.mark.is_outstanding())
}
