//! A thread pool: workers that stay, each with a mailbox of its own in which its next job lies. A job that no worker has
//! begun can be taken back, so that nobody has to wait for a worker which comes late.
#![tactic(auto)]

mod mailbox;
mod monitor;
mod pool;
#[cfg(test)]
mod tests;
mod workers;

pub use pool::ThreadPool;
pub use workers::run_workers;
