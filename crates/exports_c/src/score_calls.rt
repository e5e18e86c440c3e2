// What `exports_score` exports, with its contracts.
ghost use Rattle.std.specs.Prelude.{◌≡◌};
ghost use Rattle.boundary.specs.Flat.{kept};
ghost use Rattle.exports_score.specs.Calls.{score_read_at, told, score_values_at, saved, score_write_at};

#[unsafe(no_mangle)]
pub extern "C" fn gruttisol_score_read(text: &[u8], floats: &mut [f64], wholes: &mut [u64]) -> u32
    ensures { kept result floats.new wholes.new ≡ score_read_at text.now floats.old wholes.old }
{
    exports_score::gruttisol_score_read(text, floats, wholes)
}

#[unsafe(no_mangle)]
pub extern "C" fn gruttisol_score_values(
    text: &[u8],
    microvolts: &mut [i32],
    wholes: &mut [u64],
) -> u32
    ensures { told result microvolts.new wholes.new
        ≡ score_values_at text.now microvolts.old wholes.old }
{
    exports_score::gruttisol_score_values(text, microvolts, wholes)
}

#[unsafe(no_mangle)]
pub extern "C" fn gruttisol_score_write(
    microvolts: &[i32],
    wholes: &[u64],
    text: &mut [u8],
    written: &mut [u64],
) -> u32
    ensures { saved result text.new written.new
        ≡ score_write_at microvolts.now wholes.now text.old written.old }
{
    exports_score::gruttisol_score_write(microvolts, wholes, text, written)
}
