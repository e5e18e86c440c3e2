// common.rs of the Rust, item by item: what the oscillators share. After it an output that may be unwanted, and the tests behind refusals 1, 2, 5 and 6.
// Volts per octave, hertz and turns are three kinds of quantity; each helper takes only its own.
#![tactic(auto)]

ghost use Rattle.std.specs.Prelude.{cond, ◌≡◌, ◌≤◌, length};
ghost use Rattle.std.specs.Float.Ieee.{le};
ghost use Rattle.laws.specs.Float.{zer, one};
ghost use Rattle.common.specs.Pitch.{voct_to_hz};
ghost use Rattle.common.specs.Phase.{turns, wrap_of, turned_of, wrap_phase_of, polyblep_of, polyblamp_of, increment_of, restart_of};
ghost use Rattle.common.specs.Memo.{key3, new_memo, hits, filled, recall1, voct_to_hz_at};
ghost use Rattle.common.specs.Edge.{new_edge, seen_of, rising_above_of, rising_of, crossed_above_of, crossed_of, reset_of};
ghost use Rattle.common.specs.Ports.{out_of};
ghost use Rattle.common.specs.Refusal.{number_of, refused_number};
ghost use Rattle.common.specs.Tests.{rate_ok, phase_ok, threshold_ok, gated_refusal_of, draws_ok, draws_refusal_of};

// What refuses a call of an oscillator, by the scope's numbers, which a host is told. Those from 50 on are the boundary's: a slice that a host lends has
// another length. A number keeps its meaning.
#[derive(Clone, Copy, Debug, PartialEq, Eq)]
pub enum Refusal {
    Rate = 1,
    State = 2,
    Line = 3,
    Bank = 4,
    FewDraws = 5,
    Draw = 6,
    Tally = 7,
    Floats = 50,
    Wholes = 51,
    Samples = 52,
    Counts = 53,
}

impl Refusal {
    #[tactic(auto, unfolding(crate::specs::Refusal::number_of))]
    pub fn number(self) -> u32
        ensures { result ≡ number_of self }
    {
        self as u32
    }
}

// A pitch: 0 is middle C, one more is an octave up.
#[derive(Clone, Copy)]
pub struct VoltsPerOctave(pub f64);

// A frequency, or a sample rate.
#[derive(Clone, Copy)]
pub struct Hertz(pub f64);

// A phase, or what it grows by in a tick: hertz over hertz.
#[derive(Clone, Copy)]
pub struct Turns(pub f64);

// Frequency of middle C, the 0 V of a pitch.
const C4_HZ: f64 = 261.6255653005986;

// Above this a gate counts as high: in banks of issue 1, and always in the Rust.
pub const GATE_THRESHOLD_V: f64 = 2.5;

// And in banks from issue 2 on, which is ours.
pub const LOW_GATE_THRESHOLD_V: f64 = 1.0;

// The widest pitch that voct_to_hz takes.
const MAX_ABS_VOCT: f64 = 32.0;

// A pitch as a frequency. The clamp lets a NaN pass.
#[tactic(auto, unfolding(crate::specs::Pitch::voct_to_hz))]
pub fn voct_to_hz(voct: VoltsPerOctave) -> Hertz
    ensures { result ≡ voct_to_hz voct }
{
    Hertz(C4_HZ * numeric::exp2(numeric::clamp(voct.0, -MAX_ABS_VOCT, MAX_ABS_VOCT)))
}

// What the Rust's `wrap_phase` says; and beside it, which is ours, whether a whole turn was passed.
#[derive(Clone, Copy)]
pub struct Wrapped {
    pub phase: Turns,
    pub turned: bool,
}

// What is left over a floor, which may round to 1.0: that is 0.
fn below_one(w: f64) -> f64
    ensures { result ≡ cond (le one w) zer w }
{
    if w >= 1.0 { 0.0 } else { w }
}

// Any number brought into [0, 1), as the Rust has it.
#[tactic(auto, unfolding(crate::specs::Phase::wrap_of))]
fn wrap(x: f64) -> f64
    ensures { result ≡ wrap_of x }
{
    if numeric::is_finite(x) {
        below_one(x - numeric::floor(x))
    } else {
        0.0
    }
}

// Whether a whole turn was passed: x is finite, and its floor isn't 0.
#[tactic(auto, unfolding(crate::specs::Phase::turned_of))]
fn turned(x: f64) -> bool
    ensures { result ≡ turned_of x }
{
    numeric::is_finite(x) && numeric::floor(x) != 0.0
}

// Both, of any number.
fn wrap_far(x: f64) -> Wrapped
    ensures { result ≡ wrap_phase_of (turns x) }
{
    Wrapped {
        phase: Turns(wrap(x)),
        turned: turned(x),
    }
}

// The same without a floor where x is above -1 and below 2, as a phase and an increment nearly always are.
#[tactic(auto, using(crate::proofs::PhaseLaws::near))]
fn wrap_near(x: f64) -> Wrapped
    ensures { result ≡ wrap_phase_of (turns x) }
{
    if x >= 1.0 && x < 2.0 {
        Wrapped {
            phase: Turns(x - 1.0),
            turned: true,
        }
    } else if x < 0.0 && x > -1.0 {
        Wrapped {
            phase: Turns(below_one(x + 1.0)),
            turned: true,
        }
    } else {
        wrap_far(x)
    }
}

// A phase brought back into [0, 1), where one that isn't finite starts again at 0; and whether it passed a whole turn. Above 0 and below
// 1 is a way of its own: most phases take it, and the next tick needn't wait for a choice.
#[tactic(auto, using(crate::proofs::PhaseLaws::wrap_unit, crate::proofs::PhaseLaws::turned_unit))]
pub fn wrap_phase(x: Turns) -> Wrapped
    ensures { result ≡ wrap_phase_of x }
{
    if x.0 > 0.0 && x.0 < 1.0 {
        Wrapped {
            phase: x,
            turned: false,
        }
    } else {
        wrap_near(x.0)
    }
}

// The same for an oscillator that wraps in several places.
// Kept: a twin of wrap_phase, which the compiler leaves a call there. Of this one only the ways that few phases take become a call: two places call
// wrap_near here, so the compiler doesn't make it part of it (docs/BENCH.md: the Supersaw's tick took 49 ns by it, 61 by the other).
#[tactic(auto, using(crate::proofs::PhaseLaws::wrap_unit, crate::proofs::PhaseLaws::turned_unit))]
pub fn wrap_of_several(x: Turns) -> Wrapped
    ensures { result ≡ wrap_phase_of x }
{
    if x.0 > 0.0 {
        if x.0 < 1.0 {
            Wrapped {
                phase: x,
                turned: false,
            }
        } else {
            wrap_near(x.0)
        }
    } else {
        wrap_near(x.0)
    }
}

// What smooths a step at phase t, dt being a tick's increment.
#[tactic(auto, unfolding(crate::specs::Phase::polyblep_of))]
pub fn polyblep(t: Turns, dt: Turns) -> f64
    ensures { result ≡ polyblep_of t.0 dt.0 }
{
    if t.0 < dt.0 {
        let u = t.0 / dt.0;
        2.0 * u - u * u - 1.0
    } else if t.0 > 1.0 - dt.0 {
        let u = (t.0 - 1.0) / dt.0;
        u * u + 2.0 * u + 1.0
    } else {
        0.0
    }
}

// What smooths a corner.
#[tactic(auto, unfolding(crate::specs::Phase::polyblamp_of))]
pub fn polyblamp(t: Turns, dt: Turns) -> f64
    ensures { result ≡ polyblamp_of t.0 dt.0 }
{
    if t.0 < dt.0 {
        let u = t.0 / dt.0 - 1.0;
        -1.0 / 3.0 * u * u * u
    } else if t.0 > 1.0 - dt.0 {
        let u = (t.0 - 1.0) / dt.0 + 1.0;
        1.0 / 3.0 * u * u * u
    } else {
        0.0
    }
}

// What a phase grows by in a tick: the one place where turns are made of hertz.
#[tactic(auto, unfolding(crate::specs::Phase::increment_of))]
pub fn increment(freq: Hertz, sample_rate: Hertz) -> Turns
    ensures { result ≡ increment_of freq sample_rate }
{
    Turns(freq.0 / sample_rate.0)
}

// The phase that a tick uses: 0 where it takes its edge.
#[tactic(auto, unfolding(crate::specs::Phase::restart_of))]
pub fn restart(phase: Turns, rising: bool) -> Turns
    ensures { result ≡ restart_of phase rising }
{
    if rising { Turns(0.0) } else { phase }
}

// The Rust's Memo: it remembers what was computed for the last key. The Rust keys it by the bits of N f64s; here the key is one number or a tuple of them,
// as `numeric::bits` gives them, so 0.0 and -0.0 differ.
// Kept: `valid` stands beside the key and the value and no Option holds them, since a host's flat state has a field for each of the three, which ReadBack of
// the exports reads back, and among its whole numbers `valid` is one.
#[derive(Clone, Copy)]
pub struct Memo<K, V> {
    pub key: K,
    pub val: V,
    pub valid: bool,
}

// The key of three f64s.
pub fn key3(x: f64, y: f64, z: f64) -> (u64, u64, u64)
    ensures { result ≡ key3 x y z }
{
    (numeric::bits(x), numeric::bits(y), numeric::bits(z))
}

// Kept: what the Rust's get_or_compute asks and fills is `hits` and `filled` at each of its four places, and no function takes its closure: that one would
// ask of its caller that the closure may be called, and no public function asks anything (README, "Total").
impl<K: Copy + PartialEq, V: Copy> Memo<K, V> {
    // An empty one. What key and val are can't be told.
    pub fn new(key: K, val: V) -> Self
        ensures { result ≡ new_memo key val }
    {
        Memo {
            key,
            val,
            valid: false,
        }
    }

    // Whether the memo holds the value for this key.
    #[tactic(auto, unfolding(crate::specs::Memo::hits))]
    pub fn hits(self, key: K) -> bool
        ensures { result ≡ hits K.eq self key }
    {
        self.valid && self.key == key
    }

    // A memo that holds this value for this key.
    #[tactic(auto, unfolding(crate::specs::Memo::filled))]
    pub fn filled(key: K, val: V) -> Self
        ensures { result ≡ filled key val }
    {
        Memo {
            key,
            val,
            valid: true,
        }
    }
}

impl Memo<u64, Hertz> {
    // The Rust's get_or_compute([voct], || voct_to_hz(voct)); its answer is the new memo's val.
    #[tactic(auto, unfolding(crate::specs::Memo::recall))]
    pub fn voct_to_hz(self, voct: VoltsPerOctave) -> Self
        ensures { result ≡ recall1 voct_to_hz_at self voct.0 }
    {
        let key = numeric::bits(voct.0);
        if self.hits(key) {
            self
        } else {
            Memo::filled(key, voct_to_hz(voct))
        }
    }
}

// Tells when a gate rises: from not above its threshold to above it. The Rust's has no threshold, for there it is GATE_THRESHOLD_V.
#[derive(Clone, Copy)]
pub struct EdgeDetector {
    pub prev: f64,
    pub threshold: f64,
}

// What the Rust's `rising` says, with the detector after it.
#[derive(Clone, Copy)]
pub struct Risen {
    pub edge: EdgeDetector,
    pub rising: bool,
}

// What the Rust's `rising_frac` says, with the detector after it: no edge, or where between the two samples it was crossed.
#[derive(Clone, Copy)]
pub struct Crossed {
    pub edge: EdgeDetector,
    pub at: Option<f64>,
}

impl EdgeDetector {
    pub fn new(threshold: f64) -> Self
        ensures { result ≡ new_edge threshold }
    {
        EdgeDetector {
            prev: 0.0,
            threshold,
        }
    }

    // This one with v as its previous sample.
    fn seen(self, v: f64) -> Self
        ensures { result ≡ seen_of self v }
    {
        EdgeDetector { prev: v, ..self }
    }

    #[tactic(auto, unfolding(crate::specs::Edge::rising_of))]
    pub fn rising(self, v: f64) -> Risen
        ensures { result ≡ rising_of self v }
    {
        self.rising_above(v, self.threshold)
    }

    #[tactic(auto, unfolding(crate::specs::Edge::rising_above_of, crate::specs::Edge::rises_above))]
    pub fn rising_above(self, v: f64, threshold: f64) -> Risen
        ensures { result ≡ rising_above_of self v threshold }
    {
        Risen {
            edge: self.seen(v),
            rising: v > threshold && self.prev <= threshold,
        }
    }

    #[tactic(auto, unfolding(crate::specs::Edge::crossed_of))]
    pub fn rising_frac(self, v: f64) -> Crossed
        ensures { result ≡ crossed_of self v }
    {
        self.rising_frac_above(v, self.threshold)
    }

    // Where the straight line from the previous sample to v meets the threshold. The clamp lets a NaN pass.
    #[tactic(auto, unfolding(crate::specs::Edge::crossed_above_of, crate::specs::Edge::rises_above, crate::specs::Edge::frac_above))]
    pub fn rising_frac_above(self, v: f64, threshold: f64) -> Crossed
        ensures { result ≡ crossed_above_of self v threshold }
    {
        let at = if v > threshold && self.prev <= threshold {
            let denom = v - self.prev;
            if denom > 0.0 {
                Some(numeric::clamp((threshold - self.prev) / denom, 0.0, 1.0))
            } else {
                Some(1.0)
            }
        } else {
            None
        };
        Crossed {
            edge: self.seen(v),
            at,
        }
    }

    // A new one like this: of the same threshold.
    #[tactic(auto, unfolding(crate::specs::Edge::reset_of))]
    pub fn reset(self) -> Self
        ensures { result ≡ reset_of self }
    {
        EdgeDetector::new(self.threshold)
    }
}

// An output scaled to ±5 V. What isn't wanted reads 0.0.
#[tactic(auto, unfolding(crate::specs::Ports::out_of))]
pub fn out(want: bool, x: f64) -> f64
    ensures { result ≡ out_of want x }
{
    if want { x * 5.0 } else { 0.0 }
}

// Refusal 1 asks this: from 1,000 to 192,000, which a NaN and the infinities aren't.
#[tactic(auto, unfolding(crate::specs::Tests::rate_ok))]
pub fn rate_ok(rate: Hertz) -> bool
    ensures { result ≡ rate_ok rate }
{
    rate.0 >= 1000.0 && rate.0 <= 192000.0
}

// Refusal 2 asks this: in [0, 1), which a NaN isn't.
#[tactic(auto, unfolding(crate::specs::Tests::phase_ok))]
pub fn phase_ok(phase: Turns) -> bool
    ensures { result ≡ phase_ok phase }
{
    phase.0 >= 0.0 && phase.0 < 1.0
}

// And this: a gate's threshold is one of the two, which a NaN isn't.
#[tactic(auto, unfolding(crate::specs::Tests::threshold_ok))]
pub fn threshold_ok(threshold: f64) -> bool
    ensures { result ≡ threshold_ok threshold }
{
    threshold == GATE_THRESHOLD_V || threshold == LOW_GATE_THRESHOLD_V
}

// What refuses the state of an oscillator with a phase and a gate: first its rate, then its phase or its threshold.
#[tactic(auto, unfolding(crate::specs::Refusal::refused_number, crate::specs::Refusal::number_of))]
pub fn gated_refusal(rate: Hertz, phase: Turns, threshold: f64) -> Result<(), Refusal>
    ensures { refused_number result ≡ gated_refusal_of rate phase threshold }
{
    if !rate_ok(rate) {
        return Err(Refusal::Rate);
    }
    if phase_ok(phase) && threshold_ok(threshold) {
        Ok(())
    } else {
        Err(Refusal::State)
    }
}

// Whether each of these draws is below 2^53: all their digits together are.
#[tactic(auto, using(crate::proofs::DrawLaws::digits_all))]
fn draws_ok(draws: &[u64]) -> bool
    ensures { result ≡ draws_ok draws.now (length draws.now) }
{
    draws.iter().fold(0, |digits, draw| digits | draw) < 9007199254740992
}

// What refuses the draws of a call that needs n of them: there are fewer, or one of them is no draw. What is lent beyond them isn't looked at.
#[tactic(auto, using(crate::proofs::DrawLaws::draws_told), unfolding(crate::specs::Refusal::refused_number, crate::specs::Refusal::number_of))]
pub fn draws_refusal(n: usize, draws: &[u64]) -> Result<(), Refusal>
    ensures { refused_number result ≡ draws_refusal_of n draws.now }
{
    if draws.len() < n {
        Err(Refusal::FewDraws)
    } else if draws_ok(&draws[..n]) {
        Ok(())
    } else {
        Err(Refusal::Draw)
    }
}
