//! A law of what threads hand back. It stands on a function without a body, so that the check proves it.
ghost use Rattle.node_threads.specs.Merges.{EndWhereMerged};

use local_runs::merged::merged_logs_are_one_run;

/// The logs that threads hand back, merged by place, are a run by the plan that has ended, and a recent one.
pub fn logs_of_threads_are_one_recent_run()
    ensures { EndWhereMerged }
{
    merged_logs_are_one_run();
}
