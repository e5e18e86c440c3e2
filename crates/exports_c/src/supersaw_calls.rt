// What `exports_supersaw` exports, with its contracts.
ghost use Rattle.std.specs.Prelude.{◌≡◌};
ghost use Rattle.boundary.specs.Flat.{kept, heard, played};
ghost use Rattle.exports_supersaw.specs.Calls.{supersaw_new_at, supersaw_tick_at, supersaw_block_at, supersaw_reset_at, supersaw_set_sample_rate_at};

#[unsafe(no_mangle)]
pub extern "C" fn gruttisol_supersaw_new(
    sample_rate: f64,
    floats: &mut [f64],
    wholes: &mut [u64],
) -> u32
    ensures { kept result floats.new wholes.new
        ≡ supersaw_new_at sample_rate floats.old wholes.old }
{
    exports_supersaw::gruttisol_supersaw_new(sample_rate, floats, wholes)
}

#[unsafe(no_mangle)]
pub extern "C" fn gruttisol_supersaw_tick(
    voct: f64,
    detune: f64,
    mix: f64,
    floats: &mut [f64],
    wholes: &mut [u64],
    samples: &mut [f64],
) -> u32
    ensures { heard result floats.new wholes.new samples.new
        ≡ supersaw_tick_at voct detune mix floats.old wholes.old samples.old }
{
    exports_supersaw::gruttisol_supersaw_tick(voct, detune, mix, floats, wholes, samples)
}

#[unsafe(no_mangle)]
pub extern "C" fn gruttisol_supersaw_block(
    voct: f64,
    detune: f64,
    mix: f64,
    floats: &mut [f64],
    wholes: &mut [u64],
    counts: &mut [u32],
    samples: &mut [f64],
    marks: &mut [u32],
) -> u32
    ensures { played result floats.new wholes.new counts.new samples.new marks.new
        ≡ supersaw_block_at voct detune mix
        floats.old wholes.old counts.old samples.old marks.old }
{
    exports_supersaw::gruttisol_supersaw_block(
        voct, detune, mix, floats, wholes, counts, samples, marks,
    )
}

#[unsafe(no_mangle)]
pub extern "C" fn gruttisol_supersaw_reset(floats: &mut [f64], wholes: &mut [u64]) -> u32
    ensures { kept result floats.new wholes.new
        ≡ supersaw_reset_at floats.old wholes.old }
{
    exports_supersaw::gruttisol_supersaw_reset(floats, wholes)
}

#[unsafe(no_mangle)]
pub extern "C" fn gruttisol_supersaw_set_sample_rate(
    sample_rate: f64,
    floats: &mut [f64],
    wholes: &mut [u64],
) -> u32
    ensures { kept result floats.new wholes.new
        ≡ supersaw_set_sample_rate_at sample_rate floats.old wholes.old }
{
    exports_supersaw::gruttisol_supersaw_set_sample_rate(sample_rate, floats, wholes)
}
