//! The parts for a page, each once, on one thread.

use std::test::Fail;
use test_tasks::wants::{all_so, begin_two};
use wq_user::pages::{add_to_page, count_and_join, count_in_page, give_page, take_page};

/// Who finds the page taken counts nothing; the tally is the sum of what all others added; and they are taken in.
#[test]
fn page_is_counted_in(rt: HostRuntime) -> Result<(), Fail> {
    let (domain, mut task, mut one) = begin_two(rt.alloc())?;
    let two = task.fork(&domain, 0)?;
    if !take_page(&domain, &mut one) {
        panic!(rt; "the page is clear")
    }
    let seen = [
        count_in_page(&rt, &domain, &mut task, 7) == None,
        add_to_page(&domain, &mut one, 5) == 0,
        give_page(&rt, &domain, &mut one) == 0,
        count_and_join(&rt, &domain, &mut task, two, 7) == Some(5),
        count_in_page(&rt, &domain, &mut one, 0) == Some(12),
    ];
    all_so(&seen)?;
    task.join(&domain, one);
    Ok(())
}
