//! What the kernel's two functions do.

ghost use Rattle.queue_law.specs.Law.{EachKernelQueues};

/// Where the kernel's bytes stand for a list of tasks, a call of `queue` puts a task last and gives 0, or gives 5 where the task waits and
/// changes nothing; a call of `pop` takes the first task and gives it, or gives 255 where there is none. Each is one atomic statement that
/// reaches no other byte, and a byte at most four or five times.
pub fn each_kernel_queues()
    ensures { EachKernelQueues }
{}
