// Switches in a row, as a hub keeps them.
ghost use Rattle.std.specs.Prelude.{◌≡◌, map};
ghost use Rattle.std.specs.Option.{option_map};
ghost use Rattle.model.specs.Models.{find_switch, touched};

use crate::switch::Switch;

/// The first switch with this SwitchID.
pub fn find(switches: &[Switch], id: u16) -> Option<&Switch>
    ensures { option_map (λ s. s.now) result ≡ find_switch id switches.now }
{
    switches.iter().find(|switch| switch.id() == id)
}

/// An actor becomes due at every switch that lists it; the others stay as they are.
// Not inlined: within a caller its loops would share the registers with all that the caller keeps.
#[inline(never)]
pub fn touch_all(switches: &mut [Switch], actor: u16)
    ensures { switches.new ≡ map (touched actor) switches.old }
{
    for switch in switches.iter_mut() {
        switch.touch(actor);
    }
}
