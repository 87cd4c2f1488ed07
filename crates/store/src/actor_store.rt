// What every actor store means, and how it answers.
ghost use Rattle.std.specs.Prelude.{◌≡◌, ℕ, true};
ghost use Rattle.store.specs.Meaning.{Known, lawful_pair, read_answer, put_answer, after_put};

use fault::Fault;

/// Which of an actor's two values is meant.
#[derive(Clone, Copy, Debug, PartialEq, Eq)]
pub enum Half {
    /// The value that the actor has.
    Actual,
    /// The value that it is to have.
    Target,
}

/// What a hub needs of a store: the actors that it was opened with, and both values of each, from −32,767 to 32,766 in the actor's own unit.
/// No actor comes or goes. What a call answers and leaves is said of the store's meaning alone, so code over any store holds of each.
pub trait ActorStore {
    ghost meaning: { Self → Known };

    /// Both values of an actor, the actual value first. Refuses an unknown actor (11, at place 0).
    fn read(&self, actor: u16) -> Result<(i16, i16), Fault>
        ensures { result ≡ read_answer (meaning self.now) actor };

    /// Replaces one value of one actor; its other value, and all other actors, stay as they were.
    /// Refuses an unknown actor (11), then a forbidden value (12), both at place 0; a refused put changes nothing.
    fn put(&mut self, actor: u16, half: Half, value: i16) -> Result<(), Fault>
        ensures answer { result ≡ put_answer (meaning self.old) actor value }
        ensures after { meaning self.new ≡ after_put (meaning self.old) actor half value };

    ghost lawful: { (s : Self) (a : ℕ) → lawful_pair (meaning s a) ≡ true };
}
