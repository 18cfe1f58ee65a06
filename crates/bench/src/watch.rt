//! A watch, whose readings go to standard error.
use std::io;
use std::time::{CpuClock, Duration, Instant};

/// When a measured part began, by the clock and in processor time of this thread.
#[derive(Drop)]
pub struct Watch {
    start: Instant,
    processor: Duration,
}

impl Watch {
    pub fn start(rt: &HostRuntime) -> io::Result<Watch> {
        Ok(Watch {
            processor: rt.thread_cpu_time()?,
            start: Instant::now(rt)?,
        })
    }

    /// Tells how long so many things took since the start.
    pub fn tell(&self, rt: &HostRuntime, what: &str, count: u32) -> io::Result<()> {
        let passed = self.start.elapsed(rt)?;
        let processor = rt.thread_cpu_time()?.saturating_sub(self.processor);
        let each = each_of(&passed, count);
        let worked = each_of(&processor, count);
        eprintln!(rt; "{what}: {count}, {each} ns each, {worked} ns each of the processor")?;
        Ok(())
    }
}

fn each_of(time: &Duration, count: u32) -> u128 {
    time.as_nanos() / u128::from(count.max(1))
}
