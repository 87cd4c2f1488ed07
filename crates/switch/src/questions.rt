// What a switch can be asked.
ghost use Rattle.std.specs.Prelude.{◌≡◌, ◌≤◌, true, length};
ghost use Rattle.model.specs.Composing.{has_outstanding, outstanding_actors};
ghost use Rattle.model.specs.Models.{lists_actor, mark_of_actor};
ghost use Rattle.switch.specs.Items.{all_named};

use crate::items;
use crate::switch::Switch;
use model::{Item, Mark, Numbers, Report};

impl Switch {
    /// The SwitchID.
    pub fn id(&self) -> u16
        ensures { result ≡ self.now.id }
    {
        self.id
    }

    /// The items, in list order.
    pub fn items(&self) -> &[Item]
        ensures items { result.now ≡ self.now.items }
        ensures named { all_named result.now ≡ true }
        ensures few { length result.now ≤ 64 }
    {
        &self.items[..self.count]
    }

    /// Whether the switch lists an actor.
    pub fn lists(&self, actor: u16) -> bool
        ensures { result ≡ lists_actor actor self.now.items }
    {
        let listed = &self.items[..self.count];
        listed.iter().any(|item| item.actor == actor)
    }

    /// The mark of an actor, if the switch lists it.
    pub fn mark_of(&self, actor: u16) -> Option<Mark>
        ensures { result ≡ mark_of_actor actor self.now.items }
    {
        let found = self.items[..self.count]
            .iter()
            .find(|item| item.actor == actor);
        found.map(|item| item.mark)
    }

    /// The control word.
    pub fn control(&self) -> u32
        ensures { result ≡ self.now.control }
    {
        self.control
    }

    /// The mark of the control word.
    pub fn control_mark(&self) -> Mark
        ensures { result ≡ self.now.mark }
    {
        self.mark
    }

    /// What the switch last reported: its flags, its latest key, and its reading in tenths of a degree.
    pub fn report(&self) -> Report
        ensures { result ≡ self.now.report }
    {
        self.report
    }

    /// The package numbers: of the next packet, of the awaited answer, and of the open slip.
    pub fn numbers(&self) -> Numbers
        ensures { result ≡ self.now.numbers }
    {
        self.numbers
    }

    /// How many actors are outstanding.
    pub fn outstanding_actors(&self) -> usize
        ensures answer { result ≡ outstanding_actors self.now.items }
        ensures few { result ≤ 64 }
    {
        self.items[..self.count]
            .iter()
            .filter(|item| item.mark.is_outstanding())
            .count()
    }

    /// Whether an actor or the control word is outstanding: due, or under way.
    pub fn has_outstanding(&self) -> bool
        ensures { result ≡ has_outstanding self.now }
    {
        items::any_outstanding(&self.items[..self.count]) || self.mark.is_outstanding()
    }
}
