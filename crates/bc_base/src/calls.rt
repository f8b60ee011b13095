// The calls of an object in memory: which of them fail, and how many have failed.

ghost use Rattle.std.specs.Prelude.{◌≡◌, ◌≤◌, ℕ};
ghost use Rattle.bc_base.specs.Outside.{Rose};
ghost use Rattle.bc_base.specs.Calls.{next_count, is_to_fail};

use bc_data::list::List;

/// The calls that were made so far, those that fail, from 1, and a count of faults.
#[derive(Drop)]
pub struct Calls {
    fails: List<u32>,
    made: u64,
    faults: u64,
}

impl Calls {
    /// No call was made.
    pub fn new(fails: List<u32>) -> Self
        ensures { result ≡ record { fails = fails; made = 0; faults = 0 } }
    {
        Calls {
            fails,
            made: 0,
            faults: 0,
        }
    }

    /// Counts a call, and says whether it is one of those that fail.
    pub fn begin(&mut self) -> bool
        ensures value { result ≡ is_to_fail self.old.fails self.old.made }
        ensures counted { self.new ≡ record self.old { made = next_count self.old.made } }
    {
        let number = next_count(self.made);
        self.made = number;
        self.fails
            .as_slice()
            .iter()
            .any(|call| u64::from(*call) == number)
    }

    /// Counts a fault.
    pub fn fail(&mut self)
        ensures counted { self.new ≡ record self.old { faults = next_count self.old.faults } }
        ensures rose { Rose self.old.faults self.new.faults }
        ensures count { self.old.faults ≤ self.new.faults }
    {
        self.faults = next_count(self.faults);
    }

    /// How many calls failed.
    pub fn faults(&self) -> u64
        ensures { result ≡ self.now.faults }
    {
        self.faults
    }
}

/// One more, or the last value of the type.
pub fn next_count(count: u64) -> u64
    ensures value { result ≡ next_count count }
    ensures rose { Rose count result }
    ensures no_less { count ≤ result }
{
    count.saturating_add(1)
}
