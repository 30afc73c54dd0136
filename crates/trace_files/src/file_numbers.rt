//! Whether a number of the field begins at a place.

ghost use Rattle.std.specs.Prelude.{◌≡◌, ◌+◌, ◌%◌, ◌≤◌, IfErr, OnOk, length};
ghost use Rattle.file_records.specs.Numbers.{AreNumbersBefore, IsFirstNotField};

use crate::FileFault;
use file_records::read_number;
use goldilocks::PRIME;

/// Whether the number at `place` is one of the field, where those before it are.
pub(crate) fn check_number(bytes: &[u8], place: usize) -> Result<(), FileFault>
    requires within { place + 8 ≤ length bytes.now }
    requires eighth { place % 8 ≡ 0 }
    requires before { AreNumbersBefore bytes.now place }
    ensures goes_on { OnOk result (AreNumbersBefore bytes.now (place + 8)) }
    ensures fault { IfErr result (λ fault. fault ≡ FileFault.NotField place) }
    ensures first { IfErr result (λ _. IsFirstNotField bytes.now place) }
{
    if read_number(bytes, place) < PRIME {
        Ok(())
    } else {
        Err(FileFault::NotField(place as u64))
    }
}
