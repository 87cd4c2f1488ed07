// What every store refuses.
use fault::{Fault, StoreFault};

pub(crate) const UNKNOWN_ACTOR: Fault = Fault::Store(StoreFault::UnknownActor, 0);

pub(crate) const FORBIDDEN_VALUE: Fault = Fault::Store(StoreFault::ForbiddenValue, 0);
