// The memory that a controller sets aside for a hub, so that a small device can be chosen for it.
#![tactic(auto)]

ghost use Rattle.std.specs.Prelude.{◌≡◌, ◌<◌};

use hub::Hub;
use image::Image;
use packet::PAYLOAD_MOST;
use store::Table;

// One buffer to receive into and one to send from, each for the longest payload.
const BUFFERS: usize = 2 * PAYLOAD_MOST;

const WITH_TABLE: usize = size_of::<Hub<Table>>() + BUFFERS;

const WITH_IMAGE: usize = size_of::<Hub<Image>>() + BUFFERS;

// Two functions, since each states its size as a number, which one over any store could not.

/// How many bytes a hub over a table of actors takes, with a buffer to receive into and one to send from: below 64 KiB.
pub fn bytes_with_table() -> usize
    ensures exact { result ≡ 14232 }
    ensures below { result < 65536 }
{
    WITH_TABLE
}

/// How many bytes a hub over the image of a ControlBlock takes, with a buffer to receive into and one to send from: below 64 KiB.
pub fn bytes_with_image() -> usize
    ensures exact { result ≡ 13264 }
    ensures below { result < 65536 }
{
    WITH_IMAGE
}
