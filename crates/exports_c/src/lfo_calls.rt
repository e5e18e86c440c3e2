// What `exports_lfo` exports, with its contracts.
ghost use Rattle.std.specs.Prelude.{◌≡◌};
ghost use Rattle.boundary.specs.Flat.{kept, heard, played};
ghost use Rattle.exports_lfo.specs.Calls.{lfo_new_at, lfo_tick_at, lfo_block_at, lfo_reset_at, lfo_set_sample_rate_at};

#[unsafe(no_mangle)]
pub extern "C" fn gruttisol_lfo_new(
    sample_rate: f64,
    threshold: f64,
    floats: &mut [f64],
    wholes: &mut [u64],
) -> u32
    ensures { kept result floats.new wholes.new ≡ lfo_new_at sample_rate threshold floats.old wholes.old }
{
    exports_lfo::gruttisol_lfo_new(sample_rate, threshold, floats, wholes)
}

#[unsafe(no_mangle)]
pub extern "C" fn gruttisol_lfo_tick(
    rate: f64,
    depth: f64,
    reset: f64,
    wanted: u32,
    floats: &mut [f64],
    wholes: &mut [u64],
    samples: &mut [f64],
) -> u32
    ensures { heard result floats.new wholes.new samples.new
        ≡ lfo_tick_at rate depth reset wanted floats.old wholes.old samples.old }
{
    exports_lfo::gruttisol_lfo_tick(rate, depth, reset, wanted, floats, wholes, samples)
}

#[unsafe(no_mangle)]
pub extern "C" fn gruttisol_lfo_block(
    rate: f64,
    depth: f64,
    reset: f64,
    wanted: u32,
    floats: &mut [f64],
    wholes: &mut [u64],
    counts: &mut [u32],
    samples: &mut [f64],
    marks: &mut [u32],
) -> u32
    ensures { played result floats.new wholes.new counts.new samples.new marks.new
        ≡ lfo_block_at rate depth reset wanted floats.old wholes.old counts.old samples.old
        marks.old }
{
    exports_lfo::gruttisol_lfo_block(
        rate, depth, reset, wanted, floats, wholes, counts, samples, marks,
    )
}

#[unsafe(no_mangle)]
pub extern "C" fn gruttisol_lfo_reset(floats: &mut [f64], wholes: &mut [u64]) -> u32
    ensures { kept result floats.new wholes.new ≡ lfo_reset_at floats.old wholes.old }
{
    exports_lfo::gruttisol_lfo_reset(floats, wholes)
}

#[unsafe(no_mangle)]
pub extern "C" fn gruttisol_lfo_set_sample_rate(
    sample_rate: f64,
    floats: &mut [f64],
    wholes: &mut [u64],
) -> u32
    ensures { kept result floats.new wholes.new ≡ lfo_set_sample_rate_at sample_rate floats.old wholes.old }
{
    exports_lfo::gruttisol_lfo_set_sample_rate(sample_rate, floats, wholes)
}
