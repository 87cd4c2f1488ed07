// Settings, payloads, enrolments and questions: the calls that open and close no slip.
ghost use Rattle.std.specs.Prelude.{◌≡◌};
ghost use Rattle.hub.specs.Memory.{hub_model};
ghost use Rattle.bench_hub.specs.Playing.{applied};

use crate::call::Plain;
use crate::entries::entries_in;
use crate::outcome::Outcome;
use crate::telling::outcome_of;
use hub::Hub;
use store::ActorStore;

pub(crate) fn apply<S: ActorStore>(hub: &mut Hub<S>, call: Plain, body: &[u8]) -> Outcome
    ensures answer { result ≡ (applied (hub_model S.meaning hub.old) call body.now).0 }
    ensures after { hub_model S.meaning hub.new ≡ (applied (hub_model S.meaning hub.old) call body.now).1 }
{
    match call {
        Plain::Enrol(switch) => outcome_of(hub.enrol(switch, entries_in(body).as_slice())),
        Plain::Actual { actor, value } => outcome_of(hub.set_actual(actor, value)),
        Plain::Target { actor, value } => outcome_of(hub.set_target(actor, value)),
        Plain::Control { switch, word } => outcome_of(hub.set_control(switch, word)),
        Plain::Take => outcome_of(hub.take(body)),
        Plain::ActorMark { switch, actor } => outcome_of(hub.actor_mark(switch, actor)),
        Plain::ControlMark(switch) => outcome_of(hub.control_mark(switch)),
        Plain::Flags(switch) => outcome_of(hub.flags(switch)),
        Plain::LatestKey(switch) => outcome_of(hub.latest_key(switch)),
        Plain::Reading(switch) => outcome_of(hub.reading(switch)),
        Plain::Outstanding(switch) => outcome_of(hub.has_outstanding(switch)),
        Plain::Nothing => Outcome::Idle,
    }
}
