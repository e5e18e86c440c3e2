// KarplusStrong of oscillators.rs: a plucked string. Its delay line is lent to each call, and so are the draws of its noise.
#![tactic(auto)]

ghost use Rattle.std.specs.Prelude.{◌≡◌, ◌+◌, ◌-◌, ◌*◌, ◌%◌, ◌<◌, ◌≤◌, true, not, length, nat_le, is_nan, T, if◌then◌else◌};
ghost use Rattle.std.specs.List.{fold};
ghost use Rattle.std.specs.Float.{binary64};
ghost use Rattle.std.specs.Float.Ieee.{add, neg};
ghost use Rattle.laws.specs.Float.{is_fin, zer, one};
ghost use Rattle.laws.specs.Lists.{tab};
ghost use Rattle.numeric.specs.Basic.{clamp_of, whole_of};
ghost use Rattle.common.specs.Consts.{half};
ghost use Rattle.common.specs.Refusal.{refused_number};
ghost use Rattle.common.specs.Tests.{rate_ok};
ghost use Rattle.answer.specs.Calls.{making, changing};
ghost use Rattle.answer.specs.Mark.{all_numbers};
ghost use Rattle.answer.specs.Block.{after_ticks, joined, mark_at, frame_at};
ghost use Rattle.karplus_strong.specs.Consts.{n_ports};
ghost use Rattle.karplus_strong.specs.Line.{blank_of, pulse_of, struck_of};
ghost use Rattle.karplus_strong.specs.Step.{filter_coef_of, ap_coef_of, target_delay_of, rest_of};
ghost use Rattle.karplus_strong.specs.KarplusStrong.{max_len_of, line_ok, karplus_strong_refusal_of, karplus_strong_rate_refusal_of};
ghost use Rattle.karplus_strong.specs.KarplusStrong.{karplus_strong_cells_of, karplus_strong_new_refusal_of, karplus_strong_new_of, finite_or, controls_of};
ghost use Rattle.karplus_strong.specs.KarplusStrong.{damping_of, stretch_of, period_of};
ghost use Rattle.karplus_strong.specs.KarplusStrong.{karplus_strong_tick_of, first_refusal_of, karplus_strong_block_of};
ghost use Rattle.karplus_strong.specs.KarplusStrong.{strung_said, karplus_strong_reset_of, place_of, karplus_strong_set_sample_rate_of, strung};
ghost use Rattle.karplus_strong.specs.Shortcuts.{Cut, state_refusal_of, strike_refusal_of, strike_len, strike_at, hear_of, ticking};
ghost use Rattle.karplus_strong.specs.Shortcuts.{with_loop, after_turn, tuning_of, turn_of, held_answer, held_next};

mod turning;

use answer::{Made, Played, Tally, Ticked, Volts};
use common::{EdgeDetector, Hertz, Memo, Refusal, VoltsPerOctave};
use turning::Loop;

// The number of outputs: p10, out.
const PORTS: usize = 1;

// The Rust's fields less `max_len`, which follows from the rate, the lent line, of which the length stays, and the noise.
#[derive(Clone, Copy)]
pub struct KarplusStrong {
    pub len: usize,
    pub write_pos: usize,
    pub sample_rate: Hertz,
    pub lp_state: f64,
    pub ap_x1: f64,
    pub ap_y1: f64,
    pub trigger_edge: EdgeDetector,
    pub freq_memo: Memo<u64, Hertz>,
}

// Its inputs in port order.
#[derive(Clone, Copy)]
pub struct KarplusStrongControls {
    pub voct: VoltsPerOctave,
    pub trigger: f64,
    pub damping: f64,
    pub brightness: f64,
    pub stretch: f64,
}

// What period, damping and stretch make of the loop: its filters, and the delay of its line in whole samples and a fraction. Beside
// them, whether no control of the tick is NaN.
#[derive(Clone, Copy)]
struct Tuning {
    filter_coef: f64,
    ap_coef: f64,
    delay: u32,
    fraction: f64,
    numbers: bool,
}

// What a string hears of a tick: its pitch, of which it keeps the memo, as a period; and its trigger, of which it keeps the edge. A trigger
// that is taken strikes it: then its line has so many cells.
#[derive(Clone, Copy)]
struct Heard {
    string: KarplusStrong,
    period: f64,
    strike: Option<usize>,
}

// ---- numbers

// `x as usize`, where x is known to be from 1 to below 2^52: its digits under their leading one, less those of the fraction.
// Kept: beside numeric::to_usize, which is of every x: by that one a tick took 38.8 ns instead of 34.3 (docs/BENCH.md: 11.7 %).
fn whole(x: f64) -> usize
    requires { Cut x }
    ensures { result ≡ whole_of x }
{
    let bits: u64 = f64::to_bits(x);
    let exponent: u64 = bits >> 52;
    let digits: u64 = (bits & 0xf_ffff_ffff_ffff) | 0x10_0000_0000_0000;
    (digits >> (1075 - exponent)) as usize
}

// Neither an infinity nor a NaN. Compilers hold a NaN for rare, so what follows a number stays the straight way.
// Kept: beside numeric::is_finite, which says the same: by that one a tick took 35.8 ns instead of 34.3 (docs/BENCH.md: 4.3 %).
fn is_settled(x: f64) -> bool
    ensures { result ≡ is_fin x }
{
    let rest = x - x;
    rest == rest
}

// `x` if it is finite, else `default`.
fn finite_or(x: f64, default: f64) -> f64
    ensures { result ≡ finite_or x default }
{
    if numeric::is_finite(x) { x } else { default }
}

// finite_or(x, default).clamp(lo, hi); what lies between the ends is x itself.
fn within(x: f64, default: f64, lo: f64, hi: f64) -> f64
    requires { (is_fin lo ≡ true) × (is_fin hi ≡ true) }
    ensures { result ≡ clamp_of (finite_or x default) lo hi }
{
    if x >= lo && x <= hi {
        x
    } else {
        numeric::clamp(finite_or(x, default), lo, hi)
    }
}

// ---- the line

// Cells from `from` to below `to` become 0.0. Cold, and a call: inlined it would take registers from the loop of a block, which then took 6 % longer.
#[cold]
#[inline(never)]
fn blank(line: &mut [f64], from: usize, to: usize)
    requires { (from ≤ to) × (to ≤ length line.old) }
    ensures { line.new ≡ blank_of from to line.old }
{
    line[from..to].fill(0.0);
}

// Cell i of n: a blend of noise and impulse.
fn pulse(n: usize, brightness: f64, draw: u64, i: usize) -> f64
    ensures { result ≡ pulse_of n brightness draw i }
{
    let noise = numeric::bipolar(draw);
    if i < n / 4 {
        noise * brightness + 1.0 * (1.0 - brightness)
    } else {
        noise * brightness + 0.0 * (1.0 - brightness)
    }
}

// Rust's sum of floats starts at -0.0.
fn sum(cells: &[f64]) -> f64
    ensures { result ≡ fold (add binary64) (neg zer) cells.now }
{
    cells.iter().fold(-0.0, |sum, cell| sum + *cell)
}

// The Rust's excite: noise and impulse, less their mean.
fn excite(cells: &mut [f64], brightness: f64, draws: &[u64])
    requires { length cells.old ≤ length draws.now }
    ensures { cells.new ≡ struck_of (length cells.old) brightness draws.now cells.old }
{
    let n = cells.len();
    for (i, cell) in cells.iter_mut().enumerate() {
        *cell = pulse(n, brightness, draws[i], i);
    }
    let mean = sum(cells) / std::num::nearest_usize_to_f64(n);
    for cell in cells.iter_mut() {
        *cell -= mean;
    }
}

// ---- the loop

// 0 where a cut line has no such place.
fn placed(pos: usize, len: usize) -> usize
    ensures { result ≡ place_of pos len }
{
    if pos < len { pos } else { 0 }
}

// The delay that is left for the line once the filters have theirs.
fn target_delay(period: f64, filter_coef: f64, ap_coef: f64) -> f64
    ensures { result ≡ target_delay_of period filter_coef ap_coef }
{
    let ap_gd = (1.0 - ap_coef) / (1.0 + ap_coef);
    let filter_gd = (1.0 - filter_coef) / filter_coef;
    numeric::max(period - filter_gd - ap_gd, 1.0)
}

// A period in samples, (sample_rate / freq).clamp(2.0, max_len as f64 - 1.0). From 20 Hz on it is below max_len - 1.
fn period_of(sample_rate: Hertz, freq: Hertz) -> f64
    requires { rate_ok sample_rate ≡ true }
    ensures { result ≡ period_of sample_rate freq }
{
    let period = sample_rate.0 / freq.0;
    if freq.0 >= 20.0 {
        if period >= 2.0 { period } else { 2.0 }
    } else {
        let max_len = KarplusStrong::max_len_for(sample_rate);
        numeric::clamp(period, 2.0, (max_len as f64) - 1.0)
    }
}

impl KarplusStrongControls {
    // Whether no control is NaN.
    fn are_numbers(self) -> bool
        ensures { result ≡ all_numbers (controls_of self) }
    {
        answer::numbers([
            self.voct.0,
            self.trigger,
            self.damping,
            self.brightness,
            self.stretch,
        ])
    }

    // What they make of the loop at a period.
    fn tuning(self, period: f64) -> Tuning
        requires { whole_of (target_delay_of period (filter_coef_of (damping_of self)) (ap_coef_of (stretch_of self))) ≤ 9610 }
        ensures { result ≡ tuning_of period (damping_of self) (stretch_of self) (all_numbers (controls_of self)) }
    {
        let filter_coef = 0.5 + within(self.damping, 0.5, 0.0, 1.0) * 0.49;
        let ap_coef = -0.5 * within(self.stretch, 0.0, -1.0, 1.0);
        let target = target_delay(period, filter_coef, ap_coef);
        let delay = numeric::to_usize(target) as u32;
        Tuning {
            filter_coef,
            ap_coef,
            delay,
            fraction: target - (delay as f64),
            numbers: self.are_numbers(),
        }
    }
}

impl Heard {
    // What refuses a trigger that is taken: its draws.
    fn refusal(self, draws: &[u64]) -> Result<(), Refusal>
        ensures { refused_number result ≡ strike_refusal_of self.strike draws.now }
    {
        match self.strike {
            Some(len) => common::draws_refusal(len, draws),
            None => Ok(()),
        }
    }

    // The string, struck where its trigger is taken. Inlined, so that a tick which doesn't strike it keeps it out of memory.
    #[inline(always)]
    fn struck(self, brightness: f64, draws: &[u64], line: &mut [f64]) -> KarplusStrong
        requires { (strike_refusal_of self.strike draws.now ≡ 0) × (strike_len self.strike ≤ length line.old) }
        ensures { let x = strike_at self.string self.strike (clamp_of (finite_or brightness half) zer one) draws.now line.old in
            (result ≡ x.string) × (line.new ≡ x.line) }
    {
        match self.strike {
            Some(len) => {
                let bright = within(brightness, 0.5, 0.0, 1.0);
                excite(&mut line[..len], bright, draws);
                self.string.at_rest(len)
            }
            None => self.string,
        }
    }
}

impl Loop {
    // Loop DC leak: a loop gain below 1, so that an offset dies away.
    const LOOP_LEAK: f64 = 0.9995;

    // One sample: the loop turns once, whichever string's it is. Inlined, for with a call in its loop a block takes more than twice as long.
    #[inline(always)]
    fn turn(self, t: Tuning, line: &mut [f64]) -> Ticked<Loop>
        requires { self.len ≤ length line.old }
        ensures { (s : KarplusStrong) → turn_of (with_loop s self) t line.old ≡ after_turn s result line.new }
    {
        let delay = t.delay as usize;
        let read = line[self.behind(delay)];
        let read2 = line[self.behind(delay + 1)];
        let sample = read * (1.0 - t.fraction) + read2 * t.fraction;
        let filtered = sample * t.filter_coef + self.lp_state * (1.0 - t.filter_coef);
        let stretched = t.ap_coef * filtered + self.ap_x1 - t.ap_coef * self.ap_y1;
        let leaked = stretched * Self::LOOP_LEAK;
        if is_settled(leaked) {
            line[self.write_pos] = leaked;
            Ticked {
                answer: answer::marked(Volts::of([leaked]), false, true, true, t.numbers),
                state: Loop {
                    len: self.len,
                    write_pos: self.after(),
                    lp_state: filtered,
                    ap_x1: filtered,
                    ap_y1: stretched,
                },
            }
        } else {
            blank(line, 0, self.len);
            Ticked {
                answer: answer::marked(Volts::of([0.0]), true, true, true, t.numbers),
                state: Loop {
                    len: self.len,
                    write_pos: 0,
                    lp_state: 0.0,
                    ap_x1: 0.0,
                    ap_y1: 0.0,
                },
            }
        }
    }
}

// Kept: `struck`, `sound`, `tick`, `first_refusal` and `block` take controls, draws and line apart, for the contracts of `tick` and `block` name draws.now,
// line.old and line.new each: a struct of them would be made in `tick` and in `block`, and taken apart at once.
impl KarplusStrong {
    // The longest line, for a note of about 20 Hz.
    fn max_len_for(sample_rate: Hertz) -> usize
        requires { rate_ok sample_rate ≡ true }
        ensures { result ≡ max_len_of sample_rate }
    {
        whole(sample_rate.0 / 20.0) + 10
    }

    // What refuses a line of n cells: it has no room for the longest one and the two cells that a strike may add.
    #[tactic(auto, unfolding(common::specs::Refusal::refused_number, common::specs::Refusal::number_of))]
    fn room(max_len: usize, n: usize) -> Result<(), Refusal>
        requires { max_len ≤ 9610 }
        ensures { refused_number result ≡ (if nat_le (max_len + 2) n then 0 else 3) }
    {
        if n < max_len + 2 {
            Err(Refusal::Line)
        } else {
            Ok(())
        }
    }

    // The cells that a line needs at a sample rate; 0 of a rate that is refused.
    pub fn cells(sample_rate: Hertz) -> usize
        ensures { result ≡ karplus_strong_cells_of sample_rate }
    {
        if common::rate_ok(sample_rate) {
            KarplusStrong::max_len_for(sample_rate) + 2
        } else {
            0
        }
    }

    // Refusal 2 asks this of the state.
    #[tactic(auto, using(laws::proofs::Order::number_test), unfolding(crate::specs::KarplusStrong::line_ok))]
    fn line_ok(self, max_len: usize) -> bool
        requires { max_len ≤ 9610 }
        ensures { result ≡ line_ok self max_len }
    {
        let val = self.freq_memo.val.0;
        self.len >= 4
            && self.len <= max_len + 1
            && self.write_pos < self.len
            && val == val
            && common::threshold_ok(self.trigger_edge.threshold)
    }

    // What refuses the state itself: its rate, then the rest of it.
    fn state_refusal(self) -> Result<(), Refusal>
        ensures { refused_number result ≡ state_refusal_of self }
    {
        if !common::rate_ok(self.sample_rate) {
            Err(Refusal::Rate)
        } else if !self.line_ok(KarplusStrong::max_len_for(self.sample_rate)) {
            Err(Refusal::State)
        } else {
            Ok(())
        }
    }

    // And what refuses a call with a lent line of n cells.
    fn refusal(self, n: usize) -> Result<(), Refusal>
        ensures { refused_number result ≡ karplus_strong_refusal_of self n }
    {
        self.state_refusal()?;
        KarplusStrong::room(KarplusStrong::max_len_for(self.sample_rate), n)
    }

    // What refuses making a string in a lent line of n cells.
    fn new_refusal(sample_rate: Hertz, threshold: f64, n: usize) -> Result<(), Refusal>
        ensures { refused_number result ≡ karplus_strong_new_refusal_of sample_rate threshold n }
    {
        if !common::rate_ok(sample_rate) {
            Err(Refusal::Rate)
        } else if !common::threshold_ok(threshold) {
            Err(Refusal::State)
        } else {
            KarplusStrong::room(KarplusStrong::max_len_for(sample_rate), n)
        }
    }

    // Of a rate and of the threshold that its gate goes by. A refused one hands out a string of no cells, which every call refuses.
    pub fn new(sample_rate: Hertz, threshold: f64, line: &mut [f64]) -> Made<KarplusStrong>
        ensures { (making result ≡ (karplus_strong_new_of sample_rate threshold line.old).out)
            × (line.new ≡ (karplus_strong_new_of sample_rate threshold line.old).line) }
    {
        let outcome = KarplusStrong::new_refusal(sample_rate, threshold, line.len());
        let len = match outcome {
            Ok(()) => KarplusStrong::max_len_for(sample_rate),
            Err(_) => 0,
        };
        blank(line, 0, len);
        Made {
            outcome,
            state: KarplusStrong {
                len,
                write_pos: 0,
                sample_rate,
                lp_state: 0.0,
                ap_x1: 0.0,
                ap_y1: 0.0,
                trigger_edge: EdgeDetector::new(threshold),
                freq_memo: Memo::new(0, Hertz(0.0)),
            },
        }
    }

    // A loop at rest, of so many cells.
    fn at_rest(self, len: usize) -> Self
        ensures { result ≡ rest_of self len self.trigger_edge }
    {
        KarplusStrong {
            len,
            write_pos: 0,
            lp_state: 0.0,
            ap_x1: 0.0,
            ap_y1: 0.0,
            ..self
        }
    }

    // The loop as it stands.
    fn to_loop(self) -> Loop
        requires { self.write_pos < self.len }
        ensures { with_loop self result ≡ self }
    {
        Loop {
            len: self.len,
            write_pos: self.write_pos,
            lp_state: self.lp_state,
            ap_x1: self.ap_x1,
            ap_y1: self.ap_y1,
        }
    }

    // And back.
    fn with_loop(self, turning: Loop) -> Self
        ensures { result ≡ with_loop self turning }
    {
        KarplusStrong {
            len: turning.len,
            write_pos: turning.write_pos,
            lp_state: turning.lp_state,
            ap_x1: turning.ap_x1,
            ap_y1: turning.ap_y1,
            ..self
        }
    }

    // A tick's pitch and trigger. A pitch that isn't finite counts as 0 V.
    fn hear(self, c: KarplusStrongControls) -> Heard
        requires { (rate_ok self.sample_rate ≡ true) × T (not (is_nan self.freq_memo.val.0)) }
        ensures { result ≡ hear_of self c }
    {
        let freq_memo = self
            .freq_memo
            .voct_to_hz(VoltsPerOctave(finite_or(c.voct.0, 0.0)));
        let period = period_of(self.sample_rate, freq_memo.val);
        let risen = self.trigger_edge.rising(c.trigger);
        Heard {
            string: KarplusStrong {
                trigger_edge: risen.edge,
                freq_memo,
                ..self
            },
            period,
            strike: if risen.rising {
                Some(whole(period) + 2)
            } else {
                None
            },
        }
    }

    // A tick that nothing refuses: edge, strike if it is taken, turn.
    fn sound(
        self,
        c: KarplusStrongControls,
        draws: &[u64],
        line: &mut [f64],
    ) -> Result<Ticked<KarplusStrong>, Refusal>
        ensures { (ticking self result ≡ (karplus_strong_tick_of self c draws.now line.old).out)
            × (line.new ≡ (karplus_strong_tick_of self c draws.now line.old).line) }
    {
        self.refusal(line.len())?;
        let heard = self.hear(c);
        heard.refusal(draws)?;
        let tuning = c.tuning(heard.period);
        let struck = heard.struck(c.brightness, draws, line);
        let ticked = struck.to_loop().turn(tuning, line);
        Ok(Ticked {
            answer: ticked.answer,
            state: struck.with_loop(ticked.state),
        })
    }

    #[tactic(auto, unfolding(crate::specs::Shortcuts::ticking))]
    pub fn tick(
        self,
        c: KarplusStrongControls,
        draws: &[u64],
        line: &mut [f64],
    ) -> Ticked<KarplusStrong>
        ensures { (result ≡ (karplus_strong_tick_of self c draws.now line.old).out)
            × (line.new ≡ (karplus_strong_tick_of self c draws.now line.old).line) }
    {
        match self.sound(c, draws, line) {
            Ok(ticked) => ticked,
            Err(refused) => Ticked::refused(self, refused),
        }
    }

    // Turns one after another, as many as there are marks: neither trigger nor controls are looked at, but for what the tuning says of them.
    fn ring(self, t: Tuning, line: &mut [f64], samples: &mut [f64], marks: &mut [u32]) -> Self
        requires { (self.write_pos < self.len) × (self.len ≤ length line.old)
            × (length samples.old ≡ n_ports * length marks.old) }
        ensures line_after { strung result line.new ≡ after_ticks (held_next t) (length marks.old) (strung self line.old) }
        ensures samples_after { samples.new
            ≡ joined (frame_at n_ports (held_answer t) (held_next t) (strung self line.old)) (length marks.old) }
        ensures marks_after { marks.new
            ≡ tab (mark_at (held_answer t) (held_next t) (strung self line.old)) (length marks.old) }
    {
        let mut turning = self.to_loop();
        // Kept: a tick by its index: answer::put is told it so, since a proof knows no number of samples after their chunks_exact_mut.
        for i in 0..marks.len() {
            let ticked = turning.turn(t, &mut *line);
            answer::put(ticked.answer, PORTS, i, &mut *samples, &mut *marks);
            turning = ticked.state;
        }
        self.with_loop(turning)
    }

    // What refuses the first of n ticks. Where there is none, its trigger isn't looked at.
    fn first_refusal(
        self,
        c: KarplusStrongControls,
        draws: &[u64],
        cells: usize,
        n: usize,
    ) -> Result<(), Refusal>
        ensures { refused_number result ≡ first_refusal_of self c draws.now cells n }
    {
        self.refusal(cells)?;
        if n == 0 {
            Ok(())
        } else {
            self.hear(c).refusal(draws)
        }
    }

    // As many ticks with these controls as there are marks. Only the first can take the trigger, and the memo holds from then on.
    pub fn block(
        self,
        c: KarplusStrongControls,
        draws: &[u64],
        tally: Tally,
        line: &mut [f64],
        samples: &mut [f64],
        marks: &mut [u32],
    ) -> Result<Played<KarplusStrong>, Refusal>
        ensures { strung_said self tally result samples.new marks.new line.new
            ≡ karplus_strong_block_of (strung self line.old) c draws.now tally samples.old marks.old }
    {
        let n = marks.len();
        let first = self.first_refusal(c, draws, line.len(), n);
        answer::block_outcome(PORTS, samples.len(), first, tally, n)?;
        if n == 0 {
            return Ok(Played { state: self, tally });
        }
        let heard = self.hear(c);
        let tuning = c.tuning(heard.period);
        let struck = heard.struck(c.brightness, draws, line);
        let state = struck.ring(tuning, line, samples, marks);
        Ok(Played {
            state,
            tally: tally.take_marks(marks).unwrap_or(tally),
        })
    }

    // The line is silent again; its length stays, and so does the memo.
    pub fn reset(self, line: &mut [f64]) -> Result<KarplusStrong, Refusal>
        ensures { (changing self result ≡ (karplus_strong_reset_of self line.old).out)
            × (line.new ≡ (karplus_strong_reset_of self line.old).line) }
    {
        self.refusal(line.len())?;
        blank(line, 0, self.len);
        Ok(KarplusStrong {
            trigger_edge: self.trigger_edge.reset(),
            ..self.at_rest(self.len)
        })
    }

    // What refuses a rate change: the new rate, then the state by the old one, then the line by the new one.
    fn rate_refusal(self, sample_rate: Hertz, n: usize) -> Result<(), Refusal>
        ensures { refused_number result ≡ karplus_strong_rate_refusal_of self sample_rate n }
    {
        if !common::rate_ok(sample_rate) {
            return Err(Refusal::Rate);
        }
        self.state_refusal()?;
        KarplusStrong::room(KarplusStrong::max_len_for(sample_rate), n)
    }

    // Cuts the line to the new rate's longest, or fills it up with 0.0. A write position that no longer lies in it goes to 0.
    pub fn set_sample_rate(
        self,
        sample_rate: Hertz,
        line: &mut [f64],
    ) -> Result<KarplusStrong, Refusal>
        ensures { (changing self result ≡ (karplus_strong_set_sample_rate_of self sample_rate line.old).out)
            × (line.new ≡ (karplus_strong_set_sample_rate_of self sample_rate line.old).line) }
    {
        self.rate_refusal(sample_rate, line.len())?;
        let max_len = KarplusStrong::max_len_for(sample_rate);
        blank(line, self.len.min(max_len), max_len);
        Ok(KarplusStrong {
            len: max_len,
            write_pos: placed(self.write_pos, max_len),
            sample_rate,
            ..self
        })
    }
}
