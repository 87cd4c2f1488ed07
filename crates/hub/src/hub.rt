// The hub in fixed memory: opening one, finding its switches and changing them.
ghost use Rattle.std.specs.Prelude.{◌≡◌, map, Some, None, IfOk, IfErr, OnErr, position, ◌==◌};
ghost use Rattle.std.specs.Fn.{FnOnceReturnsAtMut};
ghost use Rattle.std.specs.Option.{option_map};
ghost use Rattle.packet.specs.Words.{major};
ghost use Rattle.model.specs.Models.{SwitchModel, at_switch, change_switch, find_switch, switches_of, touched, with_switches};
ghost use Rattle.model.specs.Opening.{opened};
ghost use Rattle.law.specs.Law.{TruthfulSwitches};
ghost use Rattle.hub.specs.Changes.{Makes};
ghost use Rattle.hub.specs.Memory.{IfOpened, handed_back, hub_model, seen};

use arrayvec::ArrayVec;
use fault::{Fault, FrameFault};
use model::Site;
use packet::MAJOR_VERSION;
use std::marker::Model;
use store::ActorStore;
use switch::Switch;

// How many switches a hub serves at most.
const MOST_SWITCHES: usize = 32;

// Opening words of our major version.
#[derive(Drop)]
pub(crate) struct OurSite {
    words: Site,
}

impl Model for OurSite {
    ghost use Rattle.std.specs.Prelude.{◌≡◌};
    ghost use Rattle.packet.specs.Words.{major};
    ghost use Rattle.model.specs.declared.told.Site.{Site};

    ghost Value = { Site };

    ghost view = { λ s. s.words };

    ghost invariant = { λ s. major s.words.version ≡ 2 };
}

impl OurSite {
    pub(crate) fn words(&self) -> Site
        ensures words { result ≡ self.now }
        ensures ours { major result.version ≡ 2 }
    {
        self.words
    }
}

/// The controller's end of the lines, in fixed memory, over an actor store of its own.
// The switches lie in order of enrolment. No `Model`: the record of a hub holds what its store means, a function, and a model's value can hold none.
#[derive(Drop)]
pub struct Hub<S: ActorStore> {
    pub(crate) site: OurSite,
    pub(crate) switches: ArrayVec<Switch, MOST_SWITCHES>,
    pub(crate) store: S,
}

// The place of the switch with this ID, if there is one.
fn place_of(switches: &[Switch], id: u16) -> Option<usize>
    ensures { result ≡ position (λ m. m.id == id) switches.now }
{
    switches.iter().position(|switch| switch.id() == id)
}

// Changes the switch with this ID, if there is one: by its place, since a proof knows no element of the row once what
// `iter_mut().find(..)` lent is given back.
fn change_at<F: FnOnce(&mut Switch)>(switches: &mut [Switch], id: u16, change: F)
    requires callable { F.IsAlwaysCallable change }
    ensures { (f : SwitchModel → SwitchModel) → Makes f (FnOnceReturnsAtMut F.FnOnce change) → switches.new ≡ at_switch id f switches.old }
{
    if let Some(i) = place_of(switches, id) {
        change(&mut switches[i]);
    }
}

impl<S: ActorStore> Hub<S> {
    /// Opens a hub with no switch over a store, whose values stay.
    ///
    /// Refuses with 4, at place 0, a site whose major version is not 2, and hands the store back.
    pub fn open(store: S, site: Site) -> Result<Hub<S>, (Fault, S)>
        ensures answer { seen S.meaning result ≡ handed_back store (opened site (S.meaning store)) }
        ensures law { IfOpened (TruthfulSwitches site (S.meaning store)) result }
    {
        let [_, major] = site.version.to_le_bytes();
        if major != MAJOR_VERSION {
            return Err((Fault::Frame(FrameFault::MajorVersion, 0), store));
        }
        Ok(Hub {
            site: OurSite { words: site },
            switches: ArrayVec::new(),
            store,
        })
    }

    // The enrolled switch with this ID.
    pub(crate) fn find(&self, id: u16) -> Option<&Switch>
        ensures { option_map (λ s. s.now) result ≡ find_switch id (switches_of (hub_model S.meaning self.now)) }
    {
        switch::find(&self.switches, id)
    }

    // The enrolled switch with this ID, or the refusal of one that is not enrolled.
    pub(crate) fn enrolled(&self, id: u16) -> Result<&Switch, Fault>
        ensures found { IfOk result (λ s. find_switch id (switches_of (hub_model S.meaning self.now)) ≡ Some s.now) }
        ensures missing { OnErr result (find_switch id (switches_of (hub_model S.meaning self.now)) ≡ None) }
        ensures refused { IfErr result (λ e. e ≡ Fault.Frame FrameFault.Switch 0) }
    {
        self.find(id).ok_or(Fault::Frame(FrameFault::Switch, 0))
    }

    // An actor becomes due at every switch that lists it.
    pub(crate) fn touch(&mut self, actor: u16)
        ensures { hub_model S.meaning self.new ≡ with_switches (map (touched actor) (switches_of (hub_model S.meaning self.old))) (hub_model S.meaning self.old) }
    {
        switch::touch_all(self.switches.as_mut_slice(), actor);
    }

    // Changes the switch with this ID, if it is enrolled.
    pub(crate) fn change<F: FnOnce(&mut Switch)>(&mut self, id: u16, change: F)
        requires callable { F.IsAlwaysCallable change }
        ensures { (f : SwitchModel → SwitchModel) → Makes f (FnOnceReturnsAtMut F.FnOnce change) → hub_model S.meaning self.new ≡ change_switch id f (hub_model S.meaning self.old) }
    {
        change_at(self.switches.as_mut_slice(), id, change);
    }
}
