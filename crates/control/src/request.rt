// What the tests of a call have shown, and what the control memory tells of the request that the task has in hand.
use limits::index::{Class, RegionCount, Task};

#[derive(Clone, Copy)]
pub struct Request {
    // How many regions the pool was started with.
    pub regions: RegionCount,
    pub task: Task,
    // The class of the request's block.
    pub class: Class,
}
