// The outcome of a call, and its ten bytes.
ghost use Rattle.std.specs.Prelude.{◌≡◌, ◌%◌};
ghost use Rattle.bench_hub.specs.Outcomes.{outcome_bytes, row_bytes};

use fault::Fault;

// The bytes of an outcome.
pub(crate) const OUTCOME_LEN: usize = 10;

// What a call tells, in three words.
#[derive(Clone, Copy)]
pub(crate) struct Told {
    pub(crate) x: u16,
    pub(crate) y: u16,
    pub(crate) z: u16,
}

// For a call that tells nothing.
pub(crate) const UNTOLD: Told = Told { x: 0, y: 0, z: 0 };

#[derive(Clone, Copy)]
pub(crate) enum Outcome {
    Done(Told),
    Refused(Fault),
    Idle,
}

// A number modulo 65,536: a length, a count or a place never reaches that.
pub(crate) fn low_word(n: usize) -> u16
    ensures { result ≡ n % 65536 }
{
    (n % 65536) as u16
}

fn row(tag: u8, number: u8, place: u16, told: Told) -> [u8; OUTCOME_LEN]
    ensures { result ≡ row_bytes tag number place told }
{
    let [p_lo, p_hi] = place.to_le_bytes();
    let [x_lo, x_hi] = told.x.to_le_bytes();
    let [y_lo, y_hi] = told.y.to_le_bytes();
    let [z_lo, z_hi] = told.z.to_le_bytes();
    [tag, number, p_lo, p_hi, x_lo, x_hi, y_lo, y_hi, z_lo, z_hi]
}

impl Outcome {
    pub(crate) fn bytes(self) -> [u8; OUTCOME_LEN]
        ensures { result ≡ outcome_bytes self }
    {
        match self {
            Outcome::Done(told) => row(0, 0, 0, told),
            Outcome::Refused(fault) => row(1, fault.number(), low_word(fault.place()), UNTOLD),
            Outcome::Idle => row(2, 0, 0, UNTOLD),
        }
    }
}
