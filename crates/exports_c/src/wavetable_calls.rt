// What `exports_wavetable` exports, with its contracts.
ghost use Rattle.std.specs.Prelude.{◌≡◌};
ghost use Rattle.boundary.specs.Flat.{kept, heard, played};
ghost use Rattle.exports_wavetable.specs.Calls.{wavetable_new_at, wavetable_tick_at, wavetable_block_at, wavetable_reset_at};
ghost use Rattle.exports_wavetable.specs.Calls.{wavetable_set_sample_rate_at, filled_with, wavetable_fill_bank_at, wavetable_fill_table_at};

#[unsafe(no_mangle)]
pub extern "C" fn gruttisol_wavetable_new(
    sample_rate: f64,
    threshold: f64,
    floats: &mut [f64],
    wholes: &mut [u64],
) -> u32
    ensures { kept result floats.new wholes.new ≡ wavetable_new_at sample_rate threshold floats.old wholes.old }
{
    exports_wavetable::gruttisol_wavetable_new(sample_rate, threshold, floats, wholes)
}

#[unsafe(no_mangle)]
pub extern "C" fn gruttisol_wavetable_tick(
    v_oct: f64,
    table: f64,
    morph: f64,
    sync: f64,
    floats: &mut [f64],
    wholes: &mut [u64],
    bank: &[f64],
    samples: &mut [f64],
) -> u32
    ensures { heard result floats.new wholes.new samples.new
        ≡ wavetable_tick_at v_oct table morph sync bank.now floats.old wholes.old samples.old }
{
    exports_wavetable::gruttisol_wavetable_tick(
        v_oct, table, morph, sync, floats, wholes, bank, samples,
    )
}

#[unsafe(no_mangle)]
pub extern "C" fn gruttisol_wavetable_block(
    v_oct: f64,
    table: f64,
    morph: f64,
    sync: f64,
    floats: &mut [f64],
    wholes: &mut [u64],
    bank: &[f64],
    counts: &mut [u32],
    samples: &mut [f64],
    marks: &mut [u32],
) -> u32
    ensures { played result floats.new wholes.new counts.new samples.new marks.new
        ≡ wavetable_block_at v_oct table morph sync bank.now floats.old wholes.old counts.old
        samples.old marks.old }
{
    exports_wavetable::gruttisol_wavetable_block(
        v_oct, table, morph, sync, floats, wholes, bank, counts, samples, marks,
    )
}

#[unsafe(no_mangle)]
pub extern "C" fn gruttisol_wavetable_reset(floats: &mut [f64], wholes: &mut [u64]) -> u32
    ensures { kept result floats.new wholes.new ≡ wavetable_reset_at floats.old wholes.old }
{
    exports_wavetable::gruttisol_wavetable_reset(floats, wholes)
}

#[unsafe(no_mangle)]
pub extern "C" fn gruttisol_wavetable_set_sample_rate(
    sample_rate: f64,
    floats: &mut [f64],
    wholes: &mut [u64],
) -> u32
    ensures { kept result floats.new wholes.new ≡ wavetable_set_sample_rate_at sample_rate floats.old wholes.old }
{
    exports_wavetable::gruttisol_wavetable_set_sample_rate(sample_rate, floats, wholes)
}

#[unsafe(no_mangle)]
pub extern "C" fn gruttisol_wavetable_fill_bank(bank: &mut [f64]) -> u32
    ensures { filled_with result bank.new ≡ wavetable_fill_bank_at bank.old }
{
    exports_wavetable::gruttisol_wavetable_fill_bank(bank)
}

#[unsafe(no_mangle)]
pub extern "C" fn gruttisol_wavetable_fill_table(table: u64, part: &mut [f64]) -> u32
    ensures { filled_with result part.new ≡ wavetable_fill_table_at table part.old }
{
    exports_wavetable::gruttisol_wavetable_fill_table(table, part)
}
