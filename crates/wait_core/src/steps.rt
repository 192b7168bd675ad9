//! The steps of open calls: a function for each class of points that makes many of the events, and one for all others.
//! Each stands out of line, with the program of its class and a copy of `look` and `make` in it: so it reads what its
//! class asks for and nothing else, and the numbers of a walk are moved at the points of walks alone. In one function
//! for all points a step takes some two hundred instructions more.

ghost use Rattle.wait_model.specs.declared.points.Point.TheVariants as at;
ghost use Rattle.wait_model.specs.declared.points.WalkPoint.TheVariants as walking;
ghost use Rattle.wait_core.specs.Stepped.{MayStep, IsStep};

use crate::engine::{Core, Stepped};
use wait_model::calls::Call;
use wait_model::points::{
    AddPoint, AwaitPoint, BitPoint, CountPoint, FinishPoint, Point, PreparePoint, RemovePoint,
    SelectPoint, WalkPoint,
};
use wait_model::programs::{
    add_event, await_event, bit_event, count_event, finish_event, first_event, next_event,
    prepare_event, remove_event, select_event, sleep_event, slept_at, test_event, walk_event,
};
use wait_model::queues::Walking;

impl Core {
    /// Makes the next event of a task that is awake and has a call open at a point.
    #[inline(always)]
    pub(crate) fn step_open(&mut self, task: u8, call: Call, point: Point) -> Stepped
        requires { MayStep self.old task call point }
        ensures { IsStep self.old task result self.new }
    {
        match point {
            Point::First => self.step_first(task, call),
            Point::Prepare(place) => self.step_prepare(task, call, place),
            Point::Test => self.step_test(task, call),
            Point::Sleep => self.step_sleep(task, call),
            Point::Finish(place, failed) => self.step_finish(task, call, place, failed),
            Point::Walk(WalkPoint::Call(walk)) => self.step_call(task, call, walk),
            Point::Walk(place) => self.step_walk(task, call, place),
            Point::Bit(place) => self.step_bit(task, call, place),
            Point::Add(place) => self.step_add(task, call, place),
            Point::Remove(place) => self.step_remove(task, call, place),
            Point::Select(place) => self.step_select(task, call, place),
            Point::Await(place) => self.step_await(task, call, place),
            Point::Count(place) => self.step_count(task, call, place),
            _ => self.step_other(task, call, point),
        }
    }

    #[inline(never)]
    fn step_first(&mut self, task: u8, call: Call) -> Stepped
        requires { MayStep self.old task call at.First }
        ensures { IsStep self.old task result self.new }
    {
        let point = Point::First;
        let found = self.look(task, call, point);
        let planned = first_event(call, found.seen);
        self.make(task, call, point, found, planned)
    }

    #[inline(never)]
    fn step_test(&mut self, task: u8, call: Call) -> Stepped
        requires { MayStep self.old task call at.Test }
        ensures { IsStep self.old task result self.new }
    {
        let point = Point::Test;
        let found = self.look(task, call, point);
        let planned = test_event(call, found.seen);
        self.make(task, call, point, found, planned)
    }

    #[inline(never)]
    fn step_sleep(&mut self, task: u8, call: Call) -> Stepped
        requires { MayStep self.old task call at.Sleep }
        ensures { IsStep self.old task result self.new }
    {
        let point = Point::Sleep;
        let found = self.look(task, call, point);
        let planned = sleep_event(found.seen, slept_at(call));
        self.make(task, call, point, found, planned)
    }

    #[inline(never)]
    fn step_prepare(&mut self, task: u8, call: Call, place: PreparePoint) -> Stepped
        requires { MayStep self.old task call (at.Prepare place) }
        ensures { IsStep self.old task result self.new }
    {
        let point = Point::Prepare(place);
        let found = self.look(task, call, point);
        let planned = prepare_event(call, place, found.seen);
        self.make(task, call, point, found, planned)
    }

    #[inline(never)]
    fn step_finish(&mut self, task: u8, call: Call, place: FinishPoint, failed: bool) -> Stepped
        requires { MayStep self.old task call (at.Finish place failed) }
        ensures { IsStep self.old task result self.new }
    {
        let point = Point::Finish(place, failed);
        let found = self.look(task, call, point);
        let planned = finish_event(task, call, place, failed, found.seen);
        self.make(task, call, point, found, planned)
    }

    #[inline(never)]
    fn step_call(&mut self, task: u8, call: Call, walk: Walking) -> Stepped
        requires { MayStep self.old task call (at.Walk (walking.Call walk)) }
        ensures { IsStep self.old task result self.new }
    {
        let point = Point::Walk(WalkPoint::Call(walk));
        let found = self.look(task, call, point);
        let planned = walk_event(call, WalkPoint::Call(walk), found.seen);
        self.make(task, call, point, found, planned)
    }

    #[inline(never)]
    fn step_walk(&mut self, task: u8, call: Call, place: WalkPoint) -> Stepped
        requires { MayStep self.old task call (at.Walk place) }
        ensures { IsStep self.old task result self.new }
    {
        let point = Point::Walk(place);
        let found = self.look(task, call, point);
        let planned = walk_event(call, place, found.seen);
        self.make(task, call, point, found, planned)
    }

    #[inline(never)]
    fn step_bit(&mut self, task: u8, call: Call, place: BitPoint) -> Stepped
        requires { MayStep self.old task call (at.Bit place) }
        ensures { IsStep self.old task result self.new }
    {
        let point = Point::Bit(place);
        let found = self.look(task, call, point);
        let planned = bit_event(call, place, found.seen);
        self.make(task, call, point, found, planned)
    }

    #[inline(never)]
    fn step_add(&mut self, task: u8, call: Call, place: AddPoint) -> Stepped
        requires { MayStep self.old task call (at.Add place) }
        ensures { IsStep self.old task result self.new }
    {
        let point = Point::Add(place);
        let found = self.look(task, call, point);
        let planned = add_event(call, place, found.seen);
        self.make(task, call, point, found, planned)
    }

    #[inline(never)]
    fn step_remove(&mut self, task: u8, call: Call, place: RemovePoint) -> Stepped
        requires { MayStep self.old task call (at.Remove place) }
        ensures { IsStep self.old task result self.new }
    {
        let point = Point::Remove(place);
        let found = self.look(task, call, point);
        let planned = remove_event(task, place, found.seen);
        self.make(task, call, point, found, planned)
    }

    #[inline(never)]
    fn step_select(&mut self, task: u8, call: Call, place: SelectPoint) -> Stepped
        requires { MayStep self.old task call (at.Select place) }
        ensures { IsStep self.old task result self.new }
    {
        let point = Point::Select(place);
        let found = self.look(task, call, point);
        let planned = select_event(call, place, found.seen);
        self.make(task, call, point, found, planned)
    }

    #[inline(never)]
    fn step_await(&mut self, task: u8, call: Call, place: AwaitPoint) -> Stepped
        requires { MayStep self.old task call (at.Await place) }
        ensures { IsStep self.old task result self.new }
    {
        let point = Point::Await(place);
        let found = self.look(task, call, point);
        let planned = await_event(task, call, place, found.seen);
        self.make(task, call, point, found, planned)
    }

    #[inline(never)]
    fn step_count(&mut self, task: u8, call: Call, place: CountPoint) -> Stepped
        requires { MayStep self.old task call (at.Count place) }
        ensures { IsStep self.old task result self.new }
    {
        let point = Point::Count(place);
        let found = self.look(task, call, point);
        let planned = count_event(call, place, found.seen);
        self.make(task, call, point, found, planned)
    }

    #[inline(never)]
    fn step_other(&mut self, task: u8, call: Call, point: Point) -> Stepped
        requires { MayStep self.old task call point }
        ensures { IsStep self.old task result self.new }
    {
        let found = self.look(task, call, point);
        let planned = next_event(task, call, point, found.seen);
        self.make(task, call, point, found, planned)
    }
}
