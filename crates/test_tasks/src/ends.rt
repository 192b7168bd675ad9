//! The end of a call whose holds a test made one by one.

use wait_rule::Domain;
use wait_rule::queues::Passing;
use wq_head::rousing::Rousing;

/// Wakes the threads that park for the lock that was given back, and those of the tasks that were woken.
pub fn end_both(domain: &Domain, rousing: Rousing, passing: Passing) {
    let (mut rousing, mut passing) = (rousing, passing);
    passing.wake(domain);
    passing.end();
    rousing.rouse_all(domain);
    rousing.end();
}

/// Whether a task is the only one that is to be roused.
pub fn rouses_only(rousing: &Rousing, who: u8) -> bool {
    let tasks = rousing.tasks();
    tasks.len() == 1 && tasks[0] == who
}
