// What `exports::answer_calls` exports, with its contracts.
ghost use Rattle.std.specs.Prelude.{◌≡◌};
ghost use Rattle.exports.specs.Counts.{kept, tally_at};

#[unsafe(no_mangle)]
pub extern "C" fn gruttisol_tally_take(code: u32, counts: &mut [u32]) -> u32
    ensures { kept result counts.new ≡ tally_at code counts.old }
{
    exports::answer_calls::gruttisol_tally_take(code, counts)
}
