use im_edge::clock::Clock;
use std::rt;
use std::time::{SystemTime, UNIX_EPOCH};

/// The system's clock. Where it can't be read, or stands before 1970, it gives 0.
#[derive(Drop)]
pub struct SystemClock<'a, R> {
    /// What tells the time.
    pub rt: &'a R,
}

impl<R: rt::Clock> Clock for SystemClock<'_, R> {
    ghost use Rattle.std.specs.Prelude.{None};

    ghost constant = { λ _. None };

    ghost given = { λ _. None };

    fn now(&mut self) -> i64 {
        let Ok(now) = SystemTime::now(self.rt) else {
            return 0;
        };
        match now.duration_since(UNIX_EPOCH) {
            Ok(since) => i64::try_from(since.as_secs()).unwrap_or(0),
            Err(_) => 0,
        }
    }
}
