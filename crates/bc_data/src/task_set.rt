// A set of tasks.

ghost use Rattle.std.specs.Prelude.{◌≡◌, ◌<◌, Bool, true, false, slice_set, slice_index_or, replicate};

use std::marker::Model;

/// A set of tasks by their numbers, which are below 256. Contracts see for each number whether it is in.
#[derive(Clone, Copy)]
pub struct TaskSet {
    tasks: [bool; 256],
}

impl Model for TaskSet {
    ghost use Rattle.std.specs.Prelude.{List, Bool};

    ghost Value = { List Bool };

    ghost view = { λ s. s.tasks };

    ghost inverse = { λ s. record { tasks = s } };
}

impl TaskSet {
    /// Every task.
    pub fn all() -> Self
        ensures { result ≡ replicate 256 true }
    {
        TaskSet { tasks: [true; 256] }
    }

    /// No task.
    pub fn none() -> Self
        ensures { result ≡ replicate 256 false }
    {
        TaskSet {
            tasks: [false; 256],
        }
    }

    /// This set with the task in it.
    pub fn with(self, task: u32) -> Self
        requires { task < 256 }
        ensures { result ≡ slice_set self task true }
    {
        let mut tasks = self.tasks;
        tasks[task as usize] = true;
        TaskSet { tasks }
    }

    /// Whether the task is in the set.
    pub fn has(&self, task: u32) -> bool
        requires { task < 256 }
        ensures { result ≡ slice_index_or self.now task false }
    {
        self.tasks[task as usize]
    }
}
