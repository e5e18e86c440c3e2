// What every exported oscillator shares: the lengths of what a host lends, the tally as a slice of counts, and the edge record as
// floats of a flat state. Lengths that don't fit are refused by 50 floats, 51 wholes, 52 samples, 53 counts.
#![tactic(auto)]

ghost use Rattle.std.specs.Prelude.{◌≡◌, List, ℕ, Float, length, get_or, set};
ghost use Rattle.std.specs.Float.{nan};
ghost use Rattle.std.proofs.lemmas.List.Edits.{sets};
ghost use Rattle.common.specs.Refusal.{refused_number};
ghost use Rattle.answer.specs.declared.Volts.{Volts};
ghost use Rattle.boundary.specs.Flat.{n_counts, counts_of, sizes_of, tick_sizes_of, tally_from, tally_sized, counts_outcome, counts_put};
ghost use Rattle.boundary.specs.Flat.{state_sized, state_heard, state_played, kept, kept_result, kept_sized, heard, heard_of, heard_sized};
ghost use Rattle.boundary.specs.Flat.{left, left_by, left_sized};
ghost use Rattle.boundary.specs.Edge.{edge_at, edge_floats};

use answer::{Played, Tally, Ticked, Volts};
use common::{EdgeDetector, Refusal};

// ---- lengths

// Kept: here and in `keep`, `hear`, `store`, `block_state`, `keep_block`, `tick_state`, `state`, `sizes`, `tick_sizes` and `block_tally` nf and nw, and floats,
// wholes, samples and counts, stand beside one another: the C interface lends them so.

// What a host lends for a state of nf floats and nw whole numbers: refused where floats or wholes have another length.
pub fn sizes(nf: usize, nw: usize, floats: &[f64], wholes: &[u64]) -> Result<(), Refusal>
    ensures { refused_number result ≡ sizes_of nf nw (length floats.now) (length wholes.now) }
{
    if floats.len() != nf {
        Err(Refusal::Floats)
    } else if wholes.len() != nw {
        Err(Refusal::Wholes)
    } else {
        Ok(())
    }
}

// And for a tick of ns samples.
pub fn tick_sizes(
    nf: usize,
    nw: usize,
    ns: usize,
    floats: &[f64],
    wholes: &[u64],
    samples: &[f64],
) -> Result<(), Refusal>
    ensures { refused_number result
        ≡ tick_sizes_of nf nw ns (length floats.now) (length wholes.now) (length samples.now) }
{
    sizes(nf, nw, floats, wholes)?;
    if samples.len() == ns {
        Ok(())
    } else {
        Err(Refusal::Samples)
    }
}

// ---- the tally

// How many counts a tally has.
const COUNTS: usize = 6;

// The tally that so many counts stand for, in the order of its fields; another number is refused.
// Kept: no TryFrom here, and no From in store_counts: they are counts of the C interface, and Settled speaks of tally_of.
pub fn tally_of(counts: &[u32]) -> Result<Tally, Refusal>
    ensures { result ≡ tally_from counts.now }
{
    if counts.len() == COUNTS {
        Ok(Tally {
            begun: counts[0],
            finished: counts[1],
            cleared: counts[2],
            notfinite: counts[3],
            lost: counts[4],
            steered: counts[5],
        })
    } else {
        Err(Refusal::Counts)
    }
}

// The tally that a block of a state of nf floats and nw whole numbers begins with, where neither the other lengths nor it is refused.
pub fn block_tally(
    nf: usize,
    nw: usize,
    floats: &[f64],
    wholes: &[u64],
    counts: &[u32],
) -> Result<Tally, Refusal>
    ensures { result ≡ tally_sized nf nw floats.now wholes.now counts.now }
{
    sizes(nf, nw, floats, wholes)?; // before its counts
    tally_of(counts)
}

// A tally's counts into a slice for them.
fn store_counts(tally: Tally, counts: &mut [u32])
    requires { length counts.old ≡ n_counts }
    ensures { counts.new ≡ counts_of tally }
{
    counts[0] = tally.begun;
    counts[1] = tally.finished;
    counts[2] = tally.cleared;
    counts[3] = tally.notfinite;
    counts[4] = tally.lost;
    counts[5] = tally.steered;
}

// The same of any slice: one that isn't for them is refused, and left.
pub fn put_counts(tally: Tally, counts: &mut [u32]) -> Result<(), Refusal>
    ensures { (result ≡ counts_outcome counts.old) × (counts.new ≡ counts_put tally counts.old) }
{
    if counts.len() != COUNTS {
        return Err(Refusal::Counts);
    }
    store_counts(tally, counts);
    Ok(())
}

// ---- the edge record

// How many floats of a state an edge record is.
pub const EDGE_FLOATS: usize = 2;

// A float of a part of a state; one that isn't there is a NaN. The part has as many by its ends, so no test is left.
fn float_at(part: &[f64], i: usize) -> f64
    ensures { result ≡ get_or part.now i nan }
{
    part.get(i).copied().unwrap_or(f64::NAN)
}

// And back. What has no place in the part is left out.
// Kept: by `get_mut` it was tried, and no proof closes: the library's says nothing of what the slice ends as.
fn put_float(x: f64, i: usize, part: &mut [f64])
    ensures { part.new ≡ set part.old i x }
{
    if i < part.len() {
        part[i] = x;
    }
}

// The edge record that a part of a state's floats is.
pub fn edge_of(part: &[f64]) -> EdgeDetector
    ensures { result ≡ edge_at part.now 0 }
{
    EdgeDetector {
        prev: float_at(part, 0),
        threshold: float_at(part, 1),
    }
}

// And back.
pub fn put_edge(e: EdgeDetector, part: &mut [f64])
    ensures { part.new ≡ sets part.old 0 (edge_floats e) }
{
    put_float(e.prev, 0, &mut *part);
    put_float(e.threshold, 1, part);
}

// ---- a state in the slices that a host lends

// How an oscillator's state lies in floats and whole numbers, and a tick's volts in samples.
pub trait Layout {
    type State: Copy;

    const FLOATS: usize;

    const WHOLES: usize;

    const SAMPLES: usize;

    ghost FLOATS: { ℕ };

    ghost WHOLES: { ℕ };

    ghost SAMPLES: { ℕ };

    ghost state_of: { List Float → List ℕ → Self.State };

    ghost floats_of: { Self.State → List Float };

    ghost wholes_of: { Self.State → List ℕ };

    ghost samples_of: { Volts → List Float };

    fn state(floats: &[f64], wholes: &[u64]) -> Self::State
        requires { (length floats.now ≡ FLOATS) × (length wholes.now ≡ WHOLES) }
        ensures { result ≡ state_of floats.now wholes.now };

    fn store(s: Self::State, floats: &mut [f64], wholes: &mut [u64])
        requires { (length floats.old ≡ FLOATS) × (length wholes.old ≡ WHOLES) }
        ensures { (floats.new ≡ floats_of s) × (wholes.new ≡ wholes_of s) };

    fn put(v: Volts, samples: &mut [f64])
        requires { length samples.old ≡ SAMPLES }
        ensures { samples.new ≡ samples_of v };
}

// The state that a host lends.
pub fn state<L: Layout>(floats: &[f64], wholes: &[u64]) -> Result<L::State, Refusal>
    ensures { result ≡ state_sized L.FLOATS L.WHOLES L.state_of floats.now wholes.now }
{
    sizes(L::FLOATS, L::WHOLES, floats, wholes)?;
    Ok(L::state(floats, wholes))
}

// The state that a call leaves, or the number of what refused it: then nothing is written.
// Kept: the u32 here, of `hear` and of `keep_block` is what the C interface answers.
pub fn keep<L: Layout>(r: Result<L::State, Refusal>, floats: &mut [f64], wholes: &mut [u64]) -> u32
    ensures { kept result floats.new wholes.new
        ≡ kept_sized L.FLOATS L.WHOLES (kept_result L.floats_of L.wholes_of r floats.old wholes.old) floats.old wholes.old }
{
    match sizes(L::FLOATS, L::WHOLES, floats, wholes) {
        Ok(()) => match r {
            Ok(s) => {
                L::store(s, floats, wholes);
                0
            }
            Err(refused) => refused.number(),
        },
        Err(refused) => refused.number(),
    }
}

// The state that a tick of these samples begins with.
pub fn tick_state<L: Layout>(
    floats: &[f64],
    wholes: &[u64],
    samples: &[f64],
) -> Result<L::State, Refusal>
    ensures { result ≡ state_heard L.FLOATS L.WHOLES L.SAMPLES L.state_of floats.now wholes.now samples.now }
{
    tick_sizes(L::FLOATS, L::WHOLES, L::SAMPLES, floats, wholes, samples)?;
    Ok(L::state(floats, wholes))
}

// The number that a host is told of a tick, with the samples and the state after it where it is accepted. The number is asked for last: asked for before,
// each mark that it may be would copy the state once more.
pub fn hear<L: Layout>(
    t: Ticked<L::State>,
    floats: &mut [f64],
    wholes: &mut [u64],
    samples: &mut [f64],
) -> u32
    ensures { heard result floats.new wholes.new samples.new
        ≡ heard_sized L.FLOATS L.WHOLES L.SAMPLES (heard_of L.floats_of L.wholes_of L.samples_of t.answer t.state floats.old wholes.old samples.old)
        floats.old wholes.old samples.old }
{
    match tick_sizes(L::FLOATS, L::WHOLES, L::SAMPLES, floats, wholes, samples) {
        Ok(()) => {
            if answer::is_accepted(t.answer) {
                L::store(t.state, floats, wholes);
                L::put(answer::samples(t.answer), samples);
                answer::host_number(t.answer)
            } else {
                answer::host_number(t.answer)
            }
        }
        Err(refused) => refused.number(),
    }
}

// The state and the tally that a block begins with.
pub fn block_state<L: Layout>(
    floats: &[f64],
    wholes: &[u64],
    counts: &[u32],
) -> Result<Played<L::State>, Refusal>
    ensures { result ≡ state_played L.FLOATS L.WHOLES L.state_of floats.now wholes.now counts.now }
{
    let tally = block_tally(L::FLOATS, L::WHOLES, floats, wholes, counts)?;
    Ok(Played {
        state: L::state(floats, wholes),
        tally,
    })
}

// The state and the counts that a block leaves, or the number of what refused it: then nothing is written.
pub fn keep_block<L: Layout>(
    r: Result<Played<L::State>, Refusal>,
    floats: &mut [f64],
    wholes: &mut [u64],
    counts: &mut [u32],
) -> u32
    ensures { left result floats.new wholes.new counts.new
        ≡ left_sized L.FLOATS L.WHOLES (left_by L.floats_of L.wholes_of r floats.old wholes.old counts.old) floats.old wholes.old counts.old }
{
    match block_tally(L::FLOATS, L::WHOLES, floats, wholes, counts) {
        Ok(_) => match r {
            Ok(played) => {
                L::store(played.state, floats, wholes);
                store_counts(played.tally, counts);
                0
            }
            Err(refused) => refused.number(),
        },
        Err(refused) => refused.number(),
    }
}
