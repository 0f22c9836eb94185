ghost use Rattle.std.specs.Prelude.{◌≡◌, ℕ, ◌+◌, ◌-◌, ◌^◌, ◌<◌, ◌≤◌, List, length, Option, IfOk, IfErr, IfSome};
ghost use Rattle.jh_files.specs.Counts.{Rose};
ghost use Rattle.jh_files.specs.Contents.{IsTooLong};

use crate::FileFault;
use std::alloc::Global;

/// Bytes that are held under names.
pub trait Files {
    /// The bytes that a name holds, where the files tell them.
    ghost holds: { Self → List ℕ → Option (List ℕ) };

    /// How many calls for a name have failed so far. An implementation may keep one count for all names.
    ghost faults: { Self → List ℕ → ℕ };

    /// The bytes of a name, where there are at most `most` of them.
    fn get(&mut self, alloc: Global, name: &str, most: u64) -> Result<Vec<u8>, FileFault>
        requires { most < 2 ^ 64 - 1 }

        // What comes is what is held, and no more than was wanted.
        ensures ok { IfOk result (λ bytes. IfSome (holds self.old name.now) (λ held. bytes.items ≡ held)) }
        ensures within { IfOk result (λ bytes. length bytes.items ≤ most) }

        // When each fault comes. Where neither of these two comes, only memory may be wanting.
        ensures failed { result ≡ Err FileFault.Failed → Rose (faults self.old name.now) (faults self.new name.now) }
        ensures too_long { IfErr result (IsTooLong (holds self.old name.now) most) }

        // What is held stays, whatever the answer, and no count falls.
        ensures held { (other : List ℕ) → holds self.new other ≡ holds self.old other }
        ensures counted { (other : List ℕ) → faults self.old other ≤ faults self.new other };
}
