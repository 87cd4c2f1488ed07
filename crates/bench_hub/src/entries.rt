// The list of words in the data of an enrolment.
ghost use Rattle.std.specs.Prelude.{◌≡◌, take};
ghost use Rattle.bench_hub.specs.Calls.{words_in};

use arrayvec::ArrayVec;

// One more than a switch can list: a longer list is refused for its length, whatever follows.
const MOST_ENTRIES: usize = 65;

// The words, low byte first. An odd last byte is left out.
pub(crate) fn entries_in(list: &[u8]) -> ArrayVec<u16, MOST_ENTRIES>
    ensures { result.items ≡ take 65 (words_in list.now) }
{
    let mut entries = ArrayVec::new();
    let mut left = list;
    while !entries.is_full() {
        let [lo, hi, rest @ ..] = left else {
            break;
        };
        entries.push(u16::from_le_bytes([*lo, *hi]));
        left = rest;
    }
    entries
}
