// One actor in a switch's list.
use crate::mark::Mark;

/// An actor that a switch lists, and how the switch stands to it. The default, actor 0 and settled, is no entry: it stands where a list of
/// fixed room holds none yet.
#[derive(Clone, Copy, PartialEq, Eq, Debug, Default)]
pub struct Item {
    /// The ActorID.
    pub actor: u16,
    /// Whether the switch has been told of both its values.
    pub mark: Mark,
}
