// An enrolled switch as the hub keeps it, in fixed memory: how one begins, and what can happen to it alone.
ghost use Rattle.std.specs.Prelude.{◌≡◌, false, [], if◌then◌else◌, ◌==◌};
ghost use Rattle.model.specs.Composing.{brought_back, closed_slip, composed, number_after};
ghost use Rattle.model.specs.Models.{all_moved, touched, with_control};
ghost use Rattle.model.specs.Opening.{new_switch};
ghost use Rattle.model.specs.Taking.{answered, with_key, with_reading, with_state};
ghost use Rattle.switch.specs.Items.{listing, may_list};

use crate::items;
use model::{Change, Item, KeyPress, Mark, Numbers, Report};
use std::marker::Model;

/// How many actors a switch lists at most.
pub const MOST_ACTORS: usize = 64;

// The control word that a switch begins with.
const FIRST_CONTROL: u32 = 0x0000_0130;

/// A switch in memory: its list of actors with their marks, its control word, its package numbers, and what it last reported.
// A clause sees it as a `SwitchModel`. The first `count` items are in use.
#[derive(Clone, Copy)]
pub struct Switch {
    pub(crate) id: u16,
    pub(crate) items: [Item; MOST_ACTORS],
    pub(crate) count: usize,
    pub(crate) control: u32,
    pub(crate) mark: Mark,
    pub(crate) numbers: Numbers,
    pub(crate) report: Report,
}

// Every item names an actor, no two the same one, and no packet has number 0, which marks an event. The room behind the list is blank,
// so that what a clause sees tells every field, as it has to for a type that is copied.
impl Model for Switch {
    ghost use Rattle.std.specs.Prelude.{length, take};
    ghost use Rattle.model.specs.Models.{SwitchModel};
    ghost use Rattle.switch.specs.Items.{LawfulSwitch, Room, filled_up};
    ghost use Rattle.switch.specs.Rooms.{length_in_use, whole};

    ghost Value = { SwitchModel };

    ghost view = { λ s. record { id = s.id; items = take s.count s.items; control = s.control; mark = s.mark; numbers = s.numbers; report = s.report } };

    ghost invariant = { λ s. LawfulSwitch (take s.count s.items) s.numbers.next × Room s.items s.count };

    ghost inverse = { λ m. record { id = m.id; items = filled_up m.items; count = length m.items; control = m.control; mark = m.mark; numbers = m.numbers; report = m.report } };

    ghost inverse_ok = { λ s h i. record {
      id = s.id;
      items = whole s.items s.count h.1 i;
      count = length_in_use s.items s.count h.1 i;
      control = s.control;
      mark = s.mark;
      numbers = s.numbers;
      report = s.report;
    } };
}

// A switch that lists nothing, for the room that no switch has taken yet. By hand: a derived one would have control word 0 and nothing due.
impl Default for Switch {
    ghost is_default = { λ s. s ≡ new_switch 0 [] };

    fn default() -> Switch {
        Switch::new(0)
    }
}

// After the last package number comes 1, since 0 marks an event.
fn number_after(number: u16) -> u16
    ensures { result ≡ number_after number }
{
    if number == u16::MAX { 1 } else { number + 1 }
}

impl Switch {
    /// A switch that lists no actor yet, with control word 0x00000130 due and next package number 1.
    pub fn new(id: u16) -> Switch
        ensures { result ≡ new_switch id [] }
    {
        Switch {
            id,
            items: [Item::default(); MOST_ACTORS],
            count: 0,
            control: FIRST_CONTROL,
            mark: Mark::Due,
            numbers: Numbers {
                next: 1,
                awaited: None,
                slip: None,
            },
            report: Report {
                flags: 0,
                key: None,
                reading: None,
            },
        }
    }

    /// Lists an actor behind the others, due, and tells true. Actor 0, one that is listed, and any beyond 64 it does not
    /// list: all stays as it was, and it tells false.
    pub fn list(&mut self, actor: u16) -> bool
        ensures answer { result ≡ may_list actor self.old.items }
        ensures after { self.new ≡ (if may_list actor self.old.items then listing actor self.old else self.old) }
    {
        if actor == 0 || self.count == MOST_ACTORS || self.lists(actor) {
            return false;
        }
        self.items[self.count] = Item {
            actor,
            mark: Mark::Due,
        };
        self.count += 1;
        true
    }

    /// An actor becomes due, where the switch lists it; else all stays as it was.
    pub fn touch(&mut self, actor: u16)
        ensures { self.new ≡ touched actor self.old }
    {
        items::touch(&mut self.items[..self.count], actor);
    }

    // Every item moves, the control word too.
    fn move_all(&mut self, change: Change)
        ensures { self.new ≡ all_moved change self.old }
    {
        items::move_all(&mut self.items[..self.count], change);
        self.mark.note(change);
    }

    /// The control word becomes this one, and due.
    pub fn set_control(&mut self, word: u32)
        ensures { self.new ≡ with_control word self.old }
    {
        self.control = word;
        self.mark.note(Change::Changed);
    }

    /// The switch told its flags; with InitRequest among them every item becomes due.
    pub fn tell_state(&mut self, flags: u32)
        ensures { self.new ≡ with_state flags self.old }
    {
        self.report.flags = flags;
        if kind::asks_init(flags) {
            self.move_all(Change::Changed);
        }
    }

    /// A key was pressed for an actor.
    pub fn press_key(&mut self, actor: u16, key: u8)
        ensures { self.new ≡ with_key actor key self.old }
    {
        self.report.key = Some(KeyPress { actor, key });
    }

    /// The switch told its reading, in tenths of a degree, or that it has none.
    pub fn tell_reading(&mut self, reading: Option<i16>)
        ensures { self.new ≡ with_reading reading self.old }
    {
        self.report.reading = reading;
    }

    /// The awaited answer came: what was under way is settled, and nothing is awaited.
    pub fn answer(&mut self)
        ensures { self.new ≡ answered self.old }
    {
        self.move_all(Change::Answered);
        self.numbers.awaited = None;
    }

    /// The number of the next packet, which is never 0.
    pub fn next_number(&self) -> u16
        ensures number { result ≡ self.now.numbers.next }
        ensures never_zero { (result == 0) ≡ false }
    {
        self.numbers.next
    }

    /// A packet was composed: what was due is under way, its answer is awaited, and its slip is open.
    pub fn compose(&mut self)
        ensures { self.new ≡ composed self.old }
    {
        self.move_all(Change::Composed);
        let number = self.next_number();
        self.numbers = Numbers {
            next: number_after(number),
            awaited: Some(number),
            slip: Some(number),
        };
    }

    /// The packet was sent: its slip is closed.
    pub fn close_slip(&mut self)
        ensures { self.new ≡ closed_slip self.old }
    {
        self.numbers.slip = None;
    }

    /// The packet was withheld: its slip is closed, what was under way is due again, and nothing is awaited.
    pub fn bring_back(&mut self)
        ensures { self.new ≡ brought_back self.old }
    {
        self.move_all(Change::Withheld);
        self.numbers = Numbers {
            awaited: None,
            slip: None,
            ..self.numbers
        };
    }
}
