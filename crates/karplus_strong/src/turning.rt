// The part of a string that moves as its loop turns.
ghost use Rattle.std.specs.Prelude.{◌≡◌, ◌+◌, ◌-◌, ◌%◌, ◌<◌};

// What moves as the loop turns: the place that a tick writes, among so many cells, and its two filters. The rest of a string stands still
// there, and so stays out of what a block copies from turn to turn.
#[derive(Clone, Copy)]
pub struct Loop {
    pub len: usize,
    pub write_pos: usize,
    pub lp_state: f64,
    pub ap_x1: f64,
    pub ap_y1: f64,
    ghost in_line: { write_pos < len },
}

impl Loop {
    // (write_pos + 1) % len
    pub fn after(self) -> usize
        ensures { result ≡ (self.write_pos + 1) % self.len }
    {
        let next = self.write_pos + 1;
        if next < self.len { next } else { 0 }
    }

    // The cell that was written `delay` ticks ago, or the oldest one: (write_pos + len.saturating_sub(delay)) % len without a division.
    pub fn behind(self, delay: usize) -> usize
        ensures { result ≡ (self.write_pos + (self.len - delay)) % self.len }
    {
        if delay <= self.write_pos {
            self.write_pos - delay
        } else if delay < self.len {
            self.write_pos + (self.len - delay)
        } else {
            self.write_pos
        }
    }
}
