// Playing a script, and playing it again.
ghost use Rattle.std.specs.Prelude.{◌≡◌, ◌+◌, ◌≤◌, length};
ghost use Rattle.bench_hub.specs.Players.{player_scene};
ghost use Rattle.bench_hub.specs.Scripts.{after_call, buffer_of, calls_in, play_at, played, played_times, room_of, told_bytes};

use crate::call::Call;
use crate::head::next_call;
use crate::outcome::OUTCOME_LEN;
use crate::player::Player;
use store::ActorStore;

// What a buffer holds before a packet is composed into it.
const UNWRITTEN: u8 = 0xA5;

impl Call {
    // The bytes of the buffer that a call takes.
    fn buffer(self) -> usize
        ensures { result ≡ buffer_of self }
    {
        match self {
            Call::Compose { room, .. } => usize::from(room),
            Call::Plain(_) | Call::HandIn(_) | Call::HandToStranger(_) => 0,
        }
    }
}

impl<S: ActorStore> Player<S> {
    // Makes a call, and writes its outcome into the room that it takes.
    fn play_call(&mut self, call: Call, body: &[u8], room: &mut [u8])
        requires room { length room.old ≡ room_of call }
        ensures bytes { room.new ≡ told_bytes (player_scene S.meaning self.old) call body.now }
        ensures after { player_scene S.meaning self.new ≡ after_call (player_scene S.meaning self.old) call body.now }
    {
        let (head, buf) = room.split_at_mut(OUTCOME_LEN);
        buf.fill(UNWRITTEN);
        let outcome = self.make(call, body, buf);
        head.copy_from_slice(&outcome.bytes());
    }

    // Plays a script, with its outcomes from a place on, and tells where they end.
    fn play_script(&mut self, script: &[u8], out: &mut [u8], from: usize) -> usize
        requires within { from ≤ length out.old }
        ensures within { result ≤ length out.old }
        ensures played { play_at (player_scene S.meaning self.new) out.new result ≡ played (calls_in script.now) (play_at (player_scene S.meaning self.old) out.old from) }
    {
        let mut at = from;
        let mut left = script;
        while let Some((call, body, rest)) = next_call(left) {
            let room = OUTCOME_LEN + call.buffer();
            if out.len() - at < room {
                break;
            }
            self.play_call(call, body, &mut out[at..at + room]);
            at += room;
            left = rest;
        }
        at
    }

    // Plays a script so many times, with the outcomes of each from the same place on, and tells where the last ones end.
    pub(crate) fn play_times(
        &mut self,
        script: &[u8],
        times: u32,
        out: &mut [u8],
        from: usize,
    ) -> usize
        requires within { from ≤ length out.old }
        ensures within { result ≤ length out.old }
        ensures played { play_at (player_scene S.meaning self.new) out.new result ≡ played_times times (calls_in script.now) from (play_at (player_scene S.meaning self.old) out.old from) }
    {
        let mut end = from;
        for _time in 0..times {
            end = self.play_script(script, out, from);
        }
        end
    }
}
