//! Owners of a Domain: each checked task is one, and the Domain is there until the last is gone.

ghost use Rattle.std.specs.Prelude.{◌≡◌, IfOk};
ghost use Rattle.std.specs.Arc.{arc_value};

use std::alloc::Global;
use std::sync::Arc;
use thiserror::Error;
use wait_rule::Domain;

/// The count of a Domain's owners is at its end. Nobody else can make one of these: it is what `another_owner` found.
#[derive(Debug, Drop, Error)]
#[error("the Domain counts no further owner")]
pub struct Full {
    found: (),
}

/// One owner more. Full comes where `Arc` counts none more, which takes 2^63 - 1 of them.
pub(crate) fn another_owner(domain: &Arc<Domain, Global>) -> Result<Arc<Domain, Global>, Full>
    ensures { IfOk result (λ d. arc_value d ≡ arc_value domain.now) }
{
    match Arc::try_clone(domain) {
        Ok(another) => Ok(another),
        Err(_) => Err(Full { found: () }),
    }
}
