// What `exports_vco` exports, with its contracts.
ghost use Rattle.std.specs.Prelude.{◌≡◌};
ghost use Rattle.boundary.specs.Flat.{kept, heard, played};
ghost use Rattle.exports_vco.specs.Calls.{vco_new_at, vco_reset_at, vco_set_sample_rate_at, controls_of, vco_tick_at, vco_block_at};

#[unsafe(no_mangle)]
pub extern "C" fn gruttisol_vco_new(
    sample_rate: f64,
    threshold: f64,
    floats: &mut [f64],
    wholes: &mut [u64],
) -> u32
    ensures { kept result floats.new wholes.new ≡ vco_new_at sample_rate threshold floats.old wholes.old }
{
    exports_vco::gruttisol_vco_new(sample_rate, threshold, floats, wholes)
}

#[unsafe(no_mangle)]
pub extern "C" fn gruttisol_vco_tick(
    voct: f64,
    fm: f64,
    pw: f64,
    sync: f64,
    fm_lin: f64,
    wanted: u32,
    floats: &mut [f64],
    wholes: &mut [u64],
    samples: &mut [f64],
) -> u32
    ensures { heard result floats.new wholes.new samples.new
        ≡ vco_tick_at (controls_of voct fm pw sync fm_lin) wanted floats.old wholes.old samples.old }
{
    exports_vco::gruttisol_vco_tick(voct, fm, pw, sync, fm_lin, wanted, floats, wholes, samples)
}

#[unsafe(no_mangle)]
pub extern "C" fn gruttisol_vco_block(
    voct: f64,
    fm: f64,
    pw: f64,
    sync: f64,
    fm_lin: f64,
    wanted: u32,
    floats: &mut [f64],
    wholes: &mut [u64],
    counts: &mut [u32],
    samples: &mut [f64],
    marks: &mut [u32],
) -> u32
    ensures { played result floats.new wholes.new counts.new samples.new marks.new
        ≡ vco_block_at (controls_of voct fm pw sync fm_lin) wanted floats.old wholes.old counts.old
        samples.old marks.old }
{
    exports_vco::gruttisol_vco_block(
        voct, fm, pw, sync, fm_lin, wanted, floats, wholes, counts, samples, marks,
    )
}

#[unsafe(no_mangle)]
pub extern "C" fn gruttisol_vco_reset(floats: &mut [f64], wholes: &mut [u64]) -> u32
    ensures { kept result floats.new wholes.new ≡ vco_reset_at floats.old wholes.old }
{
    exports_vco::gruttisol_vco_reset(floats, wholes)
}

#[unsafe(no_mangle)]
pub extern "C" fn gruttisol_vco_set_sample_rate(
    sample_rate: f64,
    floats: &mut [f64],
    wholes: &mut [u64],
) -> u32
    ensures { kept result floats.new wholes.new ≡ vco_set_sample_rate_at sample_rate floats.old wholes.old }
{
    exports_vco::gruttisol_vco_set_sample_rate(sample_rate, floats, wholes)
}
