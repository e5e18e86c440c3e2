// A score is played in blocks of frames, as many at a time as there are marks: samples and marks, and no text.
#![tactic(auto)]

ghost use Rattle.std.specs.Prelude.{◌≡◌};
ghost use Rattle.answer.specs.Block.{block_said};
ghost use Rattle.player.specs.Begin.{rate_of, threshold_of, vco_controls, lfo_controls, supersaw_controls, formant_controls};
ghost use Rattle.player.specs.Player.{controls_of, player_of, played_of};

use answer::{Played, Tally};
use common::{Hertz, Refusal, VoltsPerOctave};
use formant_osc::{FormantOsc, FormantOscControls};
use lfo::{Lfo, LfoControls};
use score::{FormantInputs, Inputs, LfoInputs, Score, SupersawInputs, VcoInputs};
use supersaw::{Supersaw, SupersawControls};
use vco::{Vco, VcoControls};

// The inputs in volts, which say what is played.
#[derive(Clone, Copy)]
pub enum Controls {
    Vco(VcoControls),
    Lfo(LfoControls),
    Supersaw(SupersawControls),
    Formant(FormantOscControls),
}

// One oscillator of each kind, of which only the one that the controls are for moves.
// Kept: a player has all four, since the theorems GateHeld and `Settled.new` (by `player_of`) speak of its Vco and of its Lfo, whichever is played.
#[derive(Clone, Copy)]
pub struct Player {
    pub controls: Controls,
    pub vco: Vco,
    pub lfo: Lfo,
    pub supersaw: Supersaw,
    pub formant: FormantOsc,
}

// All outputs wanted.
const VCO_ALL: u32 = 15;

const LFO_ALL: u32 = 63;

// ---- a score's player

#[tactic(auto, unfolding(crate::specs::Begin::rate_of))]
fn rate_of(hz: u32) -> Hertz
    ensures { result ≡ rate_of hz }
{
    Hertz(hz as f64)
}

// Where a gate counts as high: issue 1 holds where no line says one.
#[tactic(auto, unfolding(crate::specs::Begin::threshold_of))]
fn threshold_of(gate: Option<u32>) -> f64
    ensures { result ≡ threshold_of gate }
{
    match gate {
        None => common::GATE_THRESHOLD_V,
        Some(issue) => {
            if issue < 2 {
                common::GATE_THRESHOLD_V
            } else {
                common::LOW_GATE_THRESHOLD_V
            }
        }
    }
}

// The inputs in volts.
// Kept: `vco_controls`, `lfo_controls`, `supersaw_controls` and `formant_controls` are four functions and no `From`, since neither side of such an impl is
// of this crate.
#[tactic(auto, unfolding(crate::specs::Begin::vco_controls))]
fn vco_controls(i: VcoInputs) -> VcoControls
    ensures { result ≡ vco_controls i }
{
    VcoControls {
        voct: VoltsPerOctave(score::volts(i.voct)),
        fm: VoltsPerOctave(score::volts(i.fm)),
        pw: score::volts(i.pw),
        sync: score::volts(i.sync),
        fm_lin: score::volts(i.fm_lin),
    }
}

#[tactic(auto, unfolding(crate::specs::Begin::lfo_controls))]
fn lfo_controls(i: LfoInputs) -> LfoControls
    ensures { result ≡ lfo_controls i }
{
    LfoControls {
        rate: score::volts(i.rate),
        depth: score::volts(i.depth),
        reset: score::volts(i.reset),
    }
}

#[tactic(auto, unfolding(crate::specs::Begin::supersaw_controls))]
fn supersaw_controls(i: SupersawInputs) -> SupersawControls
    ensures { result ≡ supersaw_controls i }
{
    SupersawControls {
        voct: VoltsPerOctave(score::volts(i.voct)),
        detune: score::volts(i.detune),
        mix: score::volts(i.mix),
    }
}

#[tactic(auto, unfolding(crate::specs::Begin::formant_controls))]
fn formant_controls(i: FormantInputs) -> FormantOscControls
    ensures { result ≡ formant_controls i }
{
    FormantOscControls {
        v_oct: VoltsPerOctave(score::volts(i.v_oct)),
        vowel: score::volts(i.vowel),
        formant_shift: score::volts(i.formant_shift),
        vibrato: score::volts(i.vibrato),
    }
}

impl From<Inputs> for Controls {
    ghost from_gives = { λ i c. c ≡ controls_of i };

    // Kept: four kinds, all known here, so a match and no `dyn`.
    #[tactic(auto, unfolding(crate::specs::Player::controls_of))]
    fn from(inputs: Inputs) -> Self
        ensures { result ≡ controls_of inputs }
    {
        match inputs {
            Inputs::Vco(i) => Controls::Vco(vco_controls(i)),
            Inputs::Lfo(i) => Controls::Lfo(lfo_controls(i)),
            Inputs::Supersaw(i) => Controls::Supersaw(supersaw_controls(i)),
            Inputs::Formant(i) => Controls::Formant(formant_controls(i)),
        }
    }
}

impl Player {
    pub fn new(score: Score) -> Self
        ensures { result ≡ player_of score }
    {
        let rate = rate_of(score.head.hz);
        let threshold = threshold_of(score.head.gate);
        // Where `new` refuses the rate, each tick refuses it too.
        Player {
            controls: Controls::from(score.inputs),
            vco: Vco::new(rate, threshold).state,
            lfo: Lfo::new(rate, threshold).state,
            supersaw: Supersaw::new(rate).state,
            formant: FormantOsc::new(rate).state,
        }
    }

    // The next frames, as many as there are marks: a block of the oscillator that the controls are for. One that is refused leaves
    // everything; none of a score that was read is.
    pub fn play(
        self,
        tally: Tally,
        samples: &mut [f64],
        marks: &mut [u32],
    ) -> Result<Played<Player>, Refusal>
        ensures { block_said self tally result samples.new marks.new
            ≡ played_of self tally samples.old marks.old }
    {
        // Kept: four kinds, all known here, so a match and no `dyn`; what an arm gives back is another field of the Player, and the edits block_still and
        // wrong_mask stand on the arm of the Lfo.
        match self.controls {
            Controls::Vco(c) => {
                let played = self.vco.block(c, VCO_ALL, tally, samples, marks)?;
                let state = Player {
                    vco: played.state,
                    ..self
                };
                Ok(Played {
                    state,
                    tally: played.tally,
                })
            }
            Controls::Lfo(c) => {
                let played = self.lfo.block(c, LFO_ALL, tally, samples, marks)?;
                let state = Player {
                    lfo: played.state,
                    ..self
                };
                Ok(Played {
                    state,
                    tally: played.tally,
                })
            }
            Controls::Supersaw(c) => {
                let played = self.supersaw.block(c, tally, samples, marks)?;
                let state = Player {
                    supersaw: played.state,
                    ..self
                };
                Ok(Played {
                    state,
                    tally: played.tally,
                })
            }
            Controls::Formant(c) => {
                let played = self.formant.block(c, tally, samples, marks)?;
                let state = Player {
                    formant: played.state,
                    ..self
                };
                Ok(Played {
                    state,
                    tally: played.tally,
                })
            }
        }
    }
}
