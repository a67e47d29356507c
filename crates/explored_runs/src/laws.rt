//! What explores a script may share it among threads.
use script_reader::Script;
use uid_names::laws::may_cross_threads;

/// Threads may share a script.
pub fn threads_may_share_scripts() {
    may_cross_threads::<&Script>();
}
