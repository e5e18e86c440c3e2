// What `exports_noise_generator` exports, with its contracts.
ghost use Rattle.std.specs.Prelude.{◌≡◌};
ghost use Rattle.boundary.specs.Flat.{kept, heard, played};
ghost use Rattle.exports_noise_generator.specs.Calls.{noise_generator_new_at, noise_generator_with_correlation_at};
ghost use Rattle.exports_noise_generator.specs.Calls.{noise_generator_needed_at, noise_generator_needed_by_at};
ghost use Rattle.exports_noise_generator.specs.Calls.{noise_generator_tick_at, noise_generator_block_at};
ghost use Rattle.exports_noise_generator.specs.Calls.{noise_generator_reset_at, noise_generator_set_sample_rate_at};

#[unsafe(no_mangle)]
pub extern "C" fn gruttisol_noise_generator_new(floats: &mut [f64], wholes: &mut [u64]) -> u32
    ensures { kept result floats.new wholes.new ≡ noise_generator_new_at floats.old wholes.old }
{
    exports_noise_generator::gruttisol_noise_generator_new(floats, wholes)
}

#[unsafe(no_mangle)]
pub extern "C" fn gruttisol_noise_generator_with_correlation(
    correlation: f64,
    floats: &mut [f64],
    wholes: &mut [u64],
) -> u32
    ensures { kept result floats.new wholes.new
        ≡ noise_generator_with_correlation_at correlation floats.old wholes.old }
{
    exports_noise_generator::gruttisol_noise_generator_with_correlation(correlation, floats, wholes)
}

#[unsafe(no_mangle)]
pub extern "C" fn gruttisol_noise_generator_needed(wholes: &[u64]) -> u64
    ensures { result ≡ noise_generator_needed_at wholes.now }
{
    exports_noise_generator::gruttisol_noise_generator_needed(wholes)
}

#[unsafe(no_mangle)]
pub extern "C" fn gruttisol_noise_generator_needed_by(ticks: u32, wholes: &[u64]) -> u64
    ensures { result ≡ noise_generator_needed_by_at ticks wholes.now }
{
    exports_noise_generator::gruttisol_noise_generator_needed_by(ticks, wholes)
}

#[unsafe(no_mangle)]
pub extern "C" fn gruttisol_noise_generator_tick(
    given: u32,
    correlation: f64,
    wanted: u32,
    floats: &mut [f64],
    wholes: &mut [u64],
    draws: &[u64],
    samples: &mut [f64],
) -> u32
    ensures { heard result floats.new wholes.new samples.new
        ≡ noise_generator_tick_at given correlation wanted floats.old wholes.old draws.now samples.old }
{
    exports_noise_generator::gruttisol_noise_generator_tick(
        given,
        correlation,
        wanted,
        floats,
        wholes,
        draws,
        samples,
    )
}

#[unsafe(no_mangle)]
pub extern "C" fn gruttisol_noise_generator_block(
    given: u32,
    correlation: f64,
    wanted: u32,
    floats: &mut [f64],
    wholes: &mut [u64],
    draws: &[u64],
    counts: &mut [u32],
    samples: &mut [f64],
    marks: &mut [u32],
) -> u32
    ensures { played result floats.new wholes.new counts.new samples.new marks.new
        ≡ noise_generator_block_at given correlation wanted floats.old wholes.old
        draws.now counts.old samples.old marks.old }
{
    exports_noise_generator::gruttisol_noise_generator_block(
        given,
        correlation,
        wanted,
        floats,
        wholes,
        draws,
        counts,
        samples,
        marks,
    )
}

#[unsafe(no_mangle)]
pub extern "C" fn gruttisol_noise_generator_reset(floats: &mut [f64], wholes: &mut [u64]) -> u32
    ensures { kept result floats.new wholes.new ≡ noise_generator_reset_at floats.old wholes.old }
{
    exports_noise_generator::gruttisol_noise_generator_reset(floats, wholes)
}

#[unsafe(no_mangle)]
pub extern "C" fn gruttisol_noise_generator_set_sample_rate(
    sample_rate: f64,
    floats: &mut [f64],
    wholes: &mut [u64],
) -> u32
    ensures { kept result floats.new wholes.new
        ≡ noise_generator_set_sample_rate_at sample_rate floats.old wholes.old }
{
    exports_noise_generator::gruttisol_noise_generator_set_sample_rate(sample_rate, floats, wholes)
}
