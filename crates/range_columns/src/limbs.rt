//! Range cells cut into limbs.

ghost use Rattle.std.specs.Prelude.{◌≡◌, ◌<◌, ◌*◌, ◌^◌, ◌≤◌, ◌↔◌, not, All, IfSome, IsSome, IsNone, position};
ghost use Rattle.range_columns.specs.Limbs.{V1, meets_v1, joined_limbs, HasNarrowLimbs, IsSplitOf, limb_limit, IsWidth, range_bound};

use crate::RangeRow;
use goldilocks::Felt;

/// The numbers of 16 bits.
const BASE: u64 = 65536;

/// The number cut into so many limbs of 16 bits, or `None` exactly where it is 2^(16 `limbs`) or more.
///
/// There are one, two or three limbs. Each limb of the row past them has the first limb again.
pub fn split(value: Felt, limbs: u8) -> Option<RangeRow>
    requires width { IsWidth limbs }
    ensures some { IsSome result ↔ (value.number < range_bound limbs) }
    ensures limbs { IfSome result (IsSplitOf limbs value.number) }

    // What is cut meets the equation, with narrow limbs.
    ensures meets { IfSome result (V1 limbs) }
    ensures narrow { IfSome result HasNarrowLimbs }
{
    if value.number >= bound(limbs) {
        return None;
    }
    let low = value.number % BASE;
    let rest = value.number / BASE;
    let middle = if limbs > 1 { rest % BASE } else { low };
    let high = if limbs > 2 { rest / BASE % BASE } else { low };
    Some(RangeRow {
        value,
        l0: Felt { number: low },
        l1: Felt { number: middle },
        l2: Felt { number: high },
    })
}

/// The least number that has more limbs, 2^(16 `limbs`).
fn bound(limbs: u8) -> u64
    requires width { IsWidth limbs }
    ensures { result ≡ range_bound limbs }
{
    match limbs {
        1 => BASE,
        2 => BASE * BASE,
        _ => BASE * BASE * BASE,
    }
}

/// The first row whose value isn't that of its limbs; `None` exactly where V1 holds in each row.
///
/// A cell has one, two or three limbs. V1 says nothing of those past them.
pub fn limb_fault(rows: &[RangeRow], limbs: u8) -> Option<usize>
    requires width { IsWidth limbs }
    ensures fault { result ≡ position (λ r. not (meets_v1 limbs r)) rows.now }
    ensures none { IsNone result ↔ All (V1 limbs) rows.now }

    // Where no row fails and the limbs have 16 bits, each range cell is below the bound of its limbs.
    ensures narrow { IsNone result → All HasNarrowLimbs rows.now → All (λ r. r.value.number < range_bound limbs) rows.now }
{
    first_other(rows, limbs)
}

/// The first row whose value isn't that of its limbs.
fn first_other(rows: &[RangeRow], limbs: u8) -> Option<usize>
    ensures { result ≡ position (λ r. not (meets_v1 limbs r)) rows.now }
{
    rows.iter().position(|r| !r.meets_limbs(limbs))
}

impl RangeRow {
    /// Whether the value is that of so many limbs.
    fn meets_limbs(&self, limbs: u8) -> bool
        ensures { result ≡ meets_v1 limbs self.now }
    {
        self.value == self.joined(limbs)
    }

    /// The value of so many limbs.
    fn joined(&self, limbs: u8) -> Felt
        ensures { result.number ≡ joined_limbs limbs self.now }
    {
        if limbs == 1 {
            return self.l0;
        }
        let two = self.l0.add(Felt { number: BASE }.mul(self.l1));
        if limbs == 2 {
            return two;
        }
        let third = Felt {
            number: BASE * BASE,
        };
        two.add(third.mul(self.l2))
    }
}
