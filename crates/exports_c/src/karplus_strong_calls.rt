// What `exports_karplus_strong` exports, with its contracts.
ghost use Rattle.std.specs.Prelude.{◌≡◌};
ghost use Rattle.boundary.specs.Flat.{kept, heard, played};
ghost use Rattle.exports_karplus_strong.specs.Calls.{left, sounded, rung, karplus_strong_cells_at};
ghost use Rattle.exports_karplus_strong.specs.Calls.{karplus_strong_new_at, karplus_strong_tick_at, karplus_strong_block_at};
ghost use Rattle.exports_karplus_strong.specs.Calls.{karplus_strong_reset_at, karplus_strong_set_sample_rate_at};

#[unsafe(no_mangle)]
pub extern "C" fn gruttisol_karplus_strong_cells(sample_rate: f64) -> u64
    ensures { result ≡ karplus_strong_cells_at sample_rate }
{
    exports_karplus_strong::gruttisol_karplus_strong_cells(sample_rate)
}

#[unsafe(no_mangle)]
pub extern "C" fn gruttisol_karplus_strong_new(
    sample_rate: f64,
    threshold: f64,
    floats: &mut [f64],
    wholes: &mut [u64],
    line: &mut [f64],
) -> u32
    ensures { left (kept result floats.new wholes.new) line.new
        ≡ karplus_strong_new_at sample_rate threshold floats.old wholes.old line.old }
{
    exports_karplus_strong::gruttisol_karplus_strong_new(
        sample_rate,
        threshold,
        floats,
        wholes,
        line,
    )
}

#[unsafe(no_mangle)]
pub extern "C" fn gruttisol_karplus_strong_tick(
    voct: f64,
    trigger: f64,
    damping: f64,
    brightness: f64,
    stretch: f64,
    floats: &mut [f64],
    wholes: &mut [u64],
    line: &mut [f64],
    draws: &[u64],
    samples: &mut [f64],
) -> u32
    ensures { sounded (heard result floats.new wholes.new samples.new) line.new
        ≡ karplus_strong_tick_at voct trigger damping brightness stretch floats.old wholes.old line.old
        draws.now samples.old }
{
    exports_karplus_strong::gruttisol_karplus_strong_tick(
        voct, trigger, damping, brightness, stretch, floats, wholes, line, draws, samples,
    )
}

#[unsafe(no_mangle)]
pub extern "C" fn gruttisol_karplus_strong_block(
    voct: f64,
    trigger: f64,
    damping: f64,
    brightness: f64,
    stretch: f64,
    floats: &mut [f64],
    wholes: &mut [u64],
    line: &mut [f64],
    draws: &[u64],
    counts: &mut [u32],
    samples: &mut [f64],
    marks: &mut [u32],
) -> u32
    ensures { rung (played result floats.new wholes.new counts.new samples.new marks.new) line.new
        ≡ karplus_strong_block_at voct trigger damping brightness stretch floats.old wholes.old line.old draws.now
        counts.old samples.old marks.old }
{
    exports_karplus_strong::gruttisol_karplus_strong_block(
        voct, trigger, damping, brightness, stretch, floats, wholes, line, draws, counts, samples,
        marks,
    )
}

#[unsafe(no_mangle)]
pub extern "C" fn gruttisol_karplus_strong_reset(
    floats: &mut [f64],
    wholes: &mut [u64],
    line: &mut [f64],
) -> u32
    ensures { left (kept result floats.new wholes.new) line.new
        ≡ karplus_strong_reset_at floats.old wholes.old line.old }
{
    exports_karplus_strong::gruttisol_karplus_strong_reset(floats, wholes, line)
}

#[unsafe(no_mangle)]
pub extern "C" fn gruttisol_karplus_strong_set_sample_rate(
    sample_rate: f64,
    floats: &mut [f64],
    wholes: &mut [u64],
    line: &mut [f64],
) -> u32
    ensures { left (kept result floats.new wholes.new) line.new
        ≡ karplus_strong_set_sample_rate_at sample_rate floats.old wholes.old line.old }
{
    exports_karplus_strong::gruttisol_karplus_strong_set_sample_rate(
        sample_rate,
        floats,
        wholes,
        line,
    )
}
