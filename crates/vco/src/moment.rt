// A tick of the waveforms: what its controls say, and where on its way through them it is.
ghost use Rattle.std.specs.Prelude.{◌≡◌, true, ◌*◌, length};
ghost use Rattle.laws.specs.Lists.{tab};
ghost use Rattle.numeric.specs.Basic.{fabs_of, clamp_of};
ghost use Rattle.common.specs.Phase.{turns};
ghost use Rattle.common.specs.Ports.{wants};
ghost use Rattle.common.specs.Tests.{phase_ok};
ghost use Rattle.answer.specs.Mark.{all_numbers};
ghost use Rattle.answer.specs.Block.{after_ticks, joined, mark_at, frame_at};
ghost use Rattle.vco.specs.Consts.{n_ports, pw_low, pw_high};
ghost use Rattle.vco.specs.Waves.{sine_of, pw_edge_of};
ghost use Rattle.vco.specs.Shortcuts.{Width, Quiet, plain_volts, held, held_told, held_next};
ghost use Rattle.vco.specs.Vco.{controls_of, synced_of, vco_answer_of};

use super::{
    PORTS, Vco, VcoControls, corner_half, level, saw, sine, square, stepped, triangle, width,
};
use answer::{Answer, Volts};
use common::Turns;

// What stands still while the controls do: the width of the pulse, what the phase grows by in a tick, the outputs that are wanted and
// whether no control is NaN.
#[derive(Clone, Copy)]
pub struct Setting {
    pub pw: f64,
    pub dt: Turns,
    pub wanted: u32,
    pub numbers: bool,
    ghost away: { Width pw },
}

// What moves: where in this tick the sync has its edge, the phase that the waveforms see from there on, and the phase before it.
#[derive(Clone, Copy)]
pub struct Moment {
    pub at: Option<f64>,
    pub phase: Turns,
    pub p_old: Turns,
    ghost in_turn: { phase_ok phase ≡ true },
    ghost synced: { phase ≡ synced_of p_old at },
}

impl Moment {
    pub fn new(p_old: Turns, at: Option<f64>) -> Self
        requires { phase_ok p_old ≡ true }
        ensures at { result.at ≡ at }
        ensures before { result.p_old ≡ p_old }
    {
        Moment {
            at,
            phase: common::restart(p_old, at.is_some()),
            p_old,
        }
    }

    // That of the tick after it, which takes no edge.
    pub fn next(self, dt: Turns) -> Self
        ensures { held result.p_old result.at ≡ held_next dt (held self.p_old self.at) }
    {
        let phase = common::wrap_phase(Turns(self.phase.0 + dt.0)).phase;
        Moment {
            at: None,
            phase,
            p_old: phase,
        }
    }
}

impl Setting {
    pub fn new(c: VcoControls, dt: Turns, wanted: u32) -> Self
        ensures width { result.pw ≡ clamp_of c.pw pw_low pw_high }
        ensures step { result.dt ≡ dt }
        ensures mask { result.wanted ≡ wanted }
        ensures told { result.numbers ≡ all_numbers (controls_of c) }
    {
        Setting {
            pw: width(c.pw),
            dt,
            wanted,
            numbers: c.are_numbers(),
        }
    }

    // The phase seen from the pulse's falling edge. x is above 0 and below 2, so its floor is a test.
    fn pw_edge(self, now: Moment) -> Turns
        ensures { result ≡ turns (pw_edge_of now.phase.0 self.pw) }
    {
        let x = Turns(now.phase.0 + (1.0 - self.pw));
        if x.0 < 1.0 { x } else { Turns(x.0 - 1.0) }
    }

    // Whether this tick is away from every corner and takes no edge: then nothing is smoothed. Nearly every tick is.
    // half is how far the phase is from the triangle's upper corner, and what it lacks of 0.5 how far from the wrap.
    fn calm(self, now: Moment) -> bool
        ensures { result ≡ true → Quiet now.at now.phase.0 (pw_edge_of now.phase.0 self.pw) (fabs_of self.dt.0) }
    {
        match now.at {
            Some(_) => false,
            None => {
                let edge = self.pw_edge(now).0;
                let dt_abs = numeric::fabs(self.dt.0);
                let half = numeric::fabs(now.phase.0 - 0.5);
                half >= dt_abs && half < 0.5 - dt_abs && edge >= dt_abs && edge <= 1.0 - dt_abs
            }
        }
    }

    fn sin(self, now: Moment) -> f64
        ensures { result ≡ sine_of (wants self.wanted 1) now.phase.0 }
    {
        sine(self.wanted & Vco::WANT_SIN != 0, now.phase)
    }

    // A quiet tick's samples, over its sine. They are finite.
    fn plain(self, now: Moment, sin: f64) -> Volts
        requires { sin ≡ sine_of (wants self.wanted 1) now.phase.0 }
        ensures { result ≡ plain_volts now.phase.0 self.pw self.wanted }
    {
        Volts::of([
            sin,
            common::out(
                self.wanted & Vco::WANT_TRI != 0,
                triangle(now.phase, 0.0, 0.0),
            ),
            common::out(self.wanted & Vco::WANT_SAW != 0, saw(now.phase, 0.0)),
            common::out(
                self.wanted & Vco::WANT_SQR != 0,
                square(now.phase, self.pw, 0.0, 0.0),
            ),
        ])
    }

    // Any tick's samples with their mark, over its sine. Called for those alone that aren't quiet, so that the way of the others
    // is short.
    fn smoothed(self, now: Moment, sin: f64) -> Answer
        requires { sin ≡ sine_of (wants self.wanted 1) now.phase.0 }
        ensures { result ≡ vco_answer_of now.at now.phase.0 now.p_old.0 self.pw self.dt.0 self.wanted self.numbers }
    {
        let dt_abs = Turns(numeric::fabs(self.dt.0));
        let wrap = common::polyblep(now.phase, dt_abs);
        let fall = common::polyblep(self.pw_edge(now), dt_abs);
        let lower = 4.0 * dt_abs.0 * common::polyblamp(now.phase, dt_abs);
        let upper = 4.0 * dt_abs.0 * common::polyblamp(corner_half(now.phase), dt_abs);
        let tri = triangle(now.phase, lower, upper);
        let saw = stepped(now.at, saw(now.phase, wrap), -2.0 * now.p_old.0, dt_abs);
        let sqr_step = 1.0 - level(now.p_old, self.pw);
        let sqr = stepped(
            now.at,
            square(now.phase, self.pw, wrap, fall),
            sqr_step,
            dt_abs,
        );
        let volts = Volts::of([
            sin,
            common::out(self.wanted & Vco::WANT_TRI != 0, tri),
            common::out(self.wanted & Vco::WANT_SAW != 0, saw),
            common::out(self.wanted & Vco::WANT_SQR != 0, sqr),
        ]);
        answer::mark(
            volts,
            false,
            true,
            numeric::is_finite(now.phase.0 + self.dt.0),
            self.numbers,
        )
    }

    // The samples with their mark. A quiet tick is clean, or steered.
    pub fn heard(self, now: Moment) -> Answer
        ensures { result ≡ vco_answer_of now.at now.phase.0 now.p_old.0 self.pw self.dt.0 self.wanted self.numbers }
    {
        let sin = self.sin(now);
        if self.calm(now) {
            let volts = self.plain(now, sin);
            answer::marked(volts, false, true, true, self.numbers)
        } else {
            self.smoothed(now, sin)
        }
    }

    // Ticks whose memo holds. Only the first may take the edge: after it the sync stands still.
    // Kept: samples and marks apart, as in `block`, whose clause speaks of each and may not change.
    pub fn glide(self, first: Moment, samples: &mut [f64], marks: &mut [u32]) -> Turns
        requires { length samples.old ≡ n_ports * length marks.old }
        ensures value { result ≡ (after_ticks (held_next self.dt) (length marks.old) (held first.p_old first.at)).phase }
        ensures samples_after { samples.new
            ≡ joined (frame_at n_ports (held_told self.wanted self.pw self.numbers self.dt) (held_next self.dt) (held first.p_old first.at))
            (length marks.old) }
        ensures marks_after { marks.new
            ≡ tab (mark_at (held_told self.wanted self.pw self.numbers self.dt) (held_next self.dt) (held first.p_old first.at)) (length marks.old) }
    {
        let mut now = first;
        // Kept: `put` is told the tick by its index, for nothing is said of what the samples end as after chunks_exact_mut or as_chunks_mut.
        for i in 0..marks.len() {
            answer::put(self.heard(now), PORTS, i, &mut *samples, &mut *marks);
            now = now.next(self.dt);
        }
        now.p_old
    }
}
