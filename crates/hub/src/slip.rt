// The slip that a composed packet is owed, and handing it in: the packet was sent, or it was withheld.
ghost use Rattle.std.specs.Prelude.{◌≡◌, true, false, IfOk, IfErr, OnOk, OnErr};
ghost use Rattle.model.specs.Composing.{sent as sent_step, withheld as withheld_step};
ghost use Rattle.model.specs.Models.{hub_after};
ghost use Rattle.hub.specs.Memory.{hub_model};
ghost use Rattle.hub.specs.Slips.{handed_in, owed, slip_answer};

use crate::hub::Hub;
use fault::{CallFault, Fault};
use std::marker::Model;
use store::ActorStore;

/// What became of a packet.
#[derive(Clone, Copy, PartialEq, Eq, Debug)]
pub enum Fate {
    Sent,
    Withheld,
}

/// The slip of a composed packet: plain numbers, and owed to the hub that composed it, which takes it by `sent` or `withheld`.
///
/// A slip that a hub issues has a package number other than 0, and only handing it in makes that 0. So a program that
/// lets one go is not proved.
pub struct Slip {
    switch: u16,
    number: u16,
}

impl Model for Slip {
    ghost use Rattle.hub.specs.Slips.{SlipModel};

    ghost Value = { SlipModel };

    ghost view = { λ s. record { switch = s.switch; number = s.number } };
}

impl Drop for Slip {
    fn drop(self)
        requires spent { self.number ≡ 0 }
    {
        let Slip {
            switch: _,
            number: _,
        } = self;
    }
}

impl Slip {
    // The slip of a packet for a switch.
    pub(crate) fn new(switch: u16, number: u16) -> Slip
        ensures { result ≡ record { switch = switch; number = number } }
    {
        Slip { switch, number }
    }

    /// The SwitchID of the switch that the packet is for.
    pub fn switch(&self) -> u16
        ensures { result ≡ self.now.switch }
    {
        self.switch
    }

    /// The package number.
    pub fn number(&self) -> u16
        ensures { result ≡ self.now.number }
    {
        self.number
    }
}

impl<S: ActorStore> Hub<S> {
    // Whether this hub issued the slip and has not had it back.
    fn is_owed(&self, slip: &Slip) -> bool
        ensures { result ≡ owed (hub_model S.meaning self.now) slip.now }
    {
        self.find(slip.switch)
            .is_some_and(|switch| switch.numbers().slip == Some(slip.number))
    }

    // Spends a slip that is owed, and tells its switch. One that is not owed is handed back.
    fn redeem(&self, mut slip: Slip) -> Result<u16, (Fault, Slip)>
        ensures switch { IfOk result (λ id. id ≡ slip.switch) }
        ensures owed { OnOk result (owed (hub_model S.meaning self.now) slip ≡ true) }
        ensures not_owed { OnErr result (owed (hub_model S.meaning self.now) slip ≡ false) }
        ensures handed_back { IfErr result (λ e. e ≡ (Fault.Call CallFault.NoSlip 0, slip)) }
    {
        if !self.is_owed(&slip) {
            return Err((Fault::Call(CallFault::NoSlip, 0), slip));
        }
        slip.number = 0;
        Ok(slip.switch)
    }

    /// Hands in a slip: its packet was sent. What it carried stays under way, and its answer is awaited.
    ///
    /// Refuses with 22, at place 0, a slip that this hub does not have open, and hands it back; nothing changes then.
    pub fn sent(&mut self, slip: Slip) -> Result<(), (Fault, Slip)>
        ensures answer { result ≡ slip_answer slip (sent_step (hub_model S.meaning self.old) slip.switch slip.number) }
        ensures after { hub_model S.meaning self.new ≡ hub_after (hub_model S.meaning self.old) (sent_step (hub_model S.meaning self.old) slip.switch slip.number) }
    {
        let id = self.redeem(slip)?;
        self.change(id, |switch| switch.close_slip());
        Ok(())
    }

    /// Hands in a slip: its packet was withheld. What was under way is due again, and no answer is awaited.
    ///
    /// Refuses with 22, at place 0, a slip that this hub does not have open, and hands it back; nothing changes then.
    pub fn withheld(&mut self, slip: Slip) -> Result<(), (Fault, Slip)>
        ensures answer { result ≡ slip_answer slip (withheld_step (hub_model S.meaning self.old) slip.switch slip.number) }
        ensures after { hub_model S.meaning self.new ≡ hub_after (hub_model S.meaning self.old) (withheld_step (hub_model S.meaning self.old) slip.switch slip.number) }
    {
        let id = self.redeem(slip)?;
        self.change(id, |switch| switch.bring_back());
        Ok(())
    }

    /// Hands in a slip by what became of its packet: the call is `sent` or `withheld`.
    pub fn hand_in(&mut self, slip: Slip, fate: Fate) -> Result<(), (Fault, Slip)>
        ensures answer { result ≡ slip_answer slip (handed_in fate (hub_model S.meaning self.old) slip) }
        ensures after { hub_model S.meaning self.new ≡ hub_after (hub_model S.meaning self.old) (handed_in fate (hub_model S.meaning self.old) slip) }
    {
        match fate {
            Fate::Sent => self.sent(slip),
            Fate::Withheld => self.withheld(slip),
        }
    }
}
