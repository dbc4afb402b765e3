#![tactic(auto)]

// The checks that follow the sheet's own: 7, 8 and 9 of what is lent, and 13, 14 and 5 of what is read.
ghost use Rattle.std.specs.Prelude.{◌≡◌, List, ℕ};
ghost use Rattle.std.specs.Result.{result_err};
ghost use Rattle.store.specs.declared.Store.{Store};
ghost use Rattle.store.specs.Figures.{sheet_of};
ghost use Rattle.run.specs.Run.{state_of};
ghost use Rattle.checks.specs.Checks.{lack_of, fault_of};

use refusal::Refusal;
use run::Run;
use store::{Head, LIMIT_MAX, TEMPERATURE_MAX};
use table::WORDS_MAX;

// Refuses memory that is lacking where n levels are to be written: 7, 8 or 9.
pub fn check_memory(need: usize, n: usize, words: usize, bytes: usize) -> Result<(), Refusal>
    ensures { result_err result ≡ lack_of need n words bytes }
{
    if WORDS_MAX < need {
        return Err(Refusal::TableTooLarge);
    }
    if words < need {
        return Err(Refusal::TableShort);
    }
    if bytes < n {
        return Err(Refusal::PartShort);
    }
    Ok(())
}

// Refuses a reading that no plan goes on from: 13, 14 or 5.
pub fn check_reading(head: Head, a: Run) -> Result<(), Refusal>
    ensures { (store : Store) → result_err result ≡ fault_of (sheet_of head store) (state_of a) }
{
    if head.jobs <= a.done {
        return Err(Refusal::AllDone);
    }
    if head.levels <= a.level {
        return Err(Refusal::ReadingRange);
    }
    if (LIMIT_MAX as u64) < a.time {
        return Err(Refusal::ReadingRange);
    }
    if (LIMIT_MAX as u64) < a.energy {
        return Err(Refusal::ReadingRange);
    }
    if (TEMPERATURE_MAX as u64) < a.temperature {
        return Err(Refusal::ReadingRange);
    }
    if (head.temperature_limit as u64) < a.temperature {
        return Err(Refusal::ReadingHot);
    }
    Ok(())
}
