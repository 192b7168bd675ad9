//! A writer that fills the whole pipe by each piece and a reader that empties it by each, in threads of their own: so
//! each of the two waits for the other at each piece, and a wake that is lost is a hang.

use crate::meetings::Part;
use crate::pipes::streams::Stream;
use std::test::Fail;
use test_tasks::meetings::two_meet;
use test_tasks::wants::all_so;
use wait_rule::Domain;

/// How many rounds the test makes.
const ROUNDS: u32 = 60;

/// Each piece wakes who waits for it, whatever the order of the steps.
#[test]
fn full_pieces_pass_one_by_one(rt: HostRuntime) -> Result<(), Fail> {
    for _round in 0..ROUNDS {
        let (domain, task) = Domain::with_looks(rt.alloc(), 0)?;
        let parts = (Part::Sends(Stream::Full), Part::Receives(Stream::Full));
        let (_task, went) = two_meet(&rt, &domain, task, parts);
        all_so(&went)?;
    }
    Ok(())
}
