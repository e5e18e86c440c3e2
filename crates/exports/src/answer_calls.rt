// The tally for hosts: its counts in a lent slice, and an answer as the number that a tick gave.
ghost use Rattle.std.specs.Prelude.{◌≡◌};
ghost use Rattle.exports.specs.Counts.{kept, tally_at};

use answer::Volts;

// 0 where the tally took the answer, 7 where it refused it, 53 where `counts` isn't as many numbers as a tally has: begun, finished,
// cleared, notfinite, lost, steered. A new tally is zeros. A number that is no mark's is a refused tick's. An answer's volts count nowhere.
#[unsafe(no_mangle)]
pub extern "C" fn gruttisol_tally_take(code: u32, counts: &mut [u32]) -> u32
    ensures { kept result counts.new ≡ tally_at code counts.old }
{
    match boundary::tally_of(counts) {
        Ok(tally) => match tally.take(answer::answer_of(code, Volts::of([0.0]))) {
            Ok(next) => {
                // counts that a tally was made of are as many as it has
                let _ = boundary::put_counts(next, counts);
                0
            }
            Err(refused) => refused.number(),
        },
        Err(refused) => refused.number(),
    }
}
