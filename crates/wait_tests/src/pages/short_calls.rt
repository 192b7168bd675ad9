//! The calls that wait for nobody but the lock of a head: a page is taken, its tally added to, and the page given back.

use crate::in_order::met_nobody;
use page_lock::tallies::add_tally;
use page_lock::tries::try_lock_page;
use page_lock::unlocks::unlock_page;
use std::test::Fail;
use test_tasks::wants::all_so;
use wait_rule::Domain;

/// The last page of all.
const PAGE: u8 = 127;

/// A page is taken once, until it is given back; another page is another lock.
#[test]
fn page_is_taken_once(rt: HostRuntime) -> Result<(), Fail> {
    let (domain, mut task) = Domain::new(rt.alloc())?;
    let mut other = task.fork(&domain, 0)?;
    if !try_lock_page(&domain, &mut task, PAGE) {
        panic!(rt; "the page is clear")
    }
    let seen = [
        !try_lock_page(&domain, &mut other, PAGE),
        try_lock_page(&domain, &mut other, 0),
    ];
    all_so(&seen)?;
    unlock_page(&rt, &domain, &mut task, PAGE);
    assert!(rt; try_lock_page(&domain, &mut other, PAGE));
    Ok(())
}

/// Who gives a page back for which nobody waits wakes nobody, and takes no lock.
#[test]
fn unlock_takes_no_lock_for_nobody(rt: HostRuntime) -> Result<(), Fail> {
    let (domain, mut task) = Domain::new(rt.alloc())?;
    if !try_lock_page(&domain, &mut task, 1) {
        panic!(rt; "the page is clear")
    }
    let walked = unlock_page(&rt, &domain, &mut task, 1);
    assert!(rt; met_nobody(walked, 0));
    Ok(())
}

/// A tally begins with 0, and each add answers the sum of those before it.
#[test]
fn tally_answers_the_sum_before(rt: HostRuntime) -> Result<(), Fail> {
    let (domain, mut task) = Domain::new(rt.alloc())?;
    if !try_lock_page(&domain, &mut task, PAGE) {
        panic!(rt; "the page is clear")
    }
    let seen = [
        add_tally(&domain, &mut task, PAGE, 5) == 0,
        add_tally(&domain, &mut task, PAGE, u64::MAX) == 5,
        add_tally(&domain, &mut task, PAGE, 0) == 4,
    ];
    all_so(&seen)?;
    unlock_page(&rt, &domain, &mut task, PAGE);
    Ok(())
}
