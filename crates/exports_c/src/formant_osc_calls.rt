// What `exports_formant_osc` exports, with its contracts.
ghost use Rattle.std.specs.Prelude.{◌≡◌};
ghost use Rattle.boundary.specs.Flat.{kept, heard, played};
ghost use Rattle.exports_formant_osc.specs.Calls.{formant_osc_new_at, formant_osc_tick_at, formant_osc_block_at};
ghost use Rattle.exports_formant_osc.specs.Calls.{formant_osc_reset_at, formant_osc_set_sample_rate_at};

#[unsafe(no_mangle)]
pub extern "C" fn gruttisol_formant_osc_new(
    sample_rate: f64,
    floats: &mut [f64],
    wholes: &mut [u64],
) -> u32
    ensures { kept result floats.new wholes.new ≡ formant_osc_new_at sample_rate floats.old wholes.old }
{
    exports_formant_osc::gruttisol_formant_osc_new(sample_rate, floats, wholes)
}

#[unsafe(no_mangle)]
pub extern "C" fn gruttisol_formant_osc_tick(
    v_oct: f64,
    vowel: f64,
    formant_shift: f64,
    vibrato: f64,
    floats: &mut [f64],
    wholes: &mut [u64],
    samples: &mut [f64],
) -> u32
    ensures { heard result floats.new wholes.new samples.new
        ≡ formant_osc_tick_at v_oct vowel formant_shift vibrato floats.old wholes.old samples.old }
{
    exports_formant_osc::gruttisol_formant_osc_tick(
        v_oct,
        vowel,
        formant_shift,
        vibrato,
        floats,
        wholes,
        samples,
    )
}

#[unsafe(no_mangle)]
pub extern "C" fn gruttisol_formant_osc_block(
    v_oct: f64,
    vowel: f64,
    formant_shift: f64,
    vibrato: f64,
    floats: &mut [f64],
    wholes: &mut [u64],
    counts: &mut [u32],
    samples: &mut [f64],
    marks: &mut [u32],
) -> u32
    ensures { played result floats.new wholes.new counts.new samples.new marks.new
        ≡ formant_osc_block_at v_oct vowel formant_shift vibrato floats.old wholes.old counts.old samples.old
        marks.old }
{
    exports_formant_osc::gruttisol_formant_osc_block(
        v_oct,
        vowel,
        formant_shift,
        vibrato,
        floats,
        wholes,
        counts,
        samples,
        marks,
    )
}

#[unsafe(no_mangle)]
pub extern "C" fn gruttisol_formant_osc_reset(floats: &mut [f64], wholes: &mut [u64]) -> u32
    ensures { kept result floats.new wholes.new ≡ formant_osc_reset_at floats.old wholes.old }
{
    exports_formant_osc::gruttisol_formant_osc_reset(floats, wholes)
}

#[unsafe(no_mangle)]
pub extern "C" fn gruttisol_formant_osc_set_sample_rate(
    sample_rate: f64,
    floats: &mut [f64],
    wholes: &mut [u64],
) -> u32
    ensures { kept result floats.new wholes.new ≡ formant_osc_set_sample_rate_at sample_rate floats.old wholes.old }
{
    exports_formant_osc::gruttisol_formant_osc_set_sample_rate(sample_rate, floats, wholes)
}
