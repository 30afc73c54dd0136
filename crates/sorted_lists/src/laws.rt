//! What holds of lists in order, each law as the contract of a function that does nothing.

ghost use Rattle.std.specs.Prelude.{◌≡◌, ◌≢◌, ◌↔◌, ◌⊎◌, ◌+◌, ◌%◌, ◌<◌, ℕ, List, Option, Some, None, IsTrue, length, take, slice_get, slice_index_or};
ghost use Rattle.std.specs.List.{AllAdjacentBelow};
ghost use Rattle.std.specs.declared.cmp.Ordering.TheVariants.{Equal};
ghost use Rattle.goldilocks.specs.Field.{prime};
ghost use Rattle.sorted_lists.specs.Order.{IsInOrderOf, in_order};
ghost use Rattle.sorted_lists.specs.Difference.{list_difference};
ghost use Rattle.sorted_lists.specs.Climbing.{climb, AllNeighbours, first_between};

/// A list put in order has the items of the list, each as often, and ascends; it is the only list that does, where
/// what compares equal is equal.
pub fn in_order_laws<T: Ord>()
    ensures is { (xs : List T) → IsInOrderOf T.cmp xs (in_order T.cmp xs) }
    ensures only { ((x y : T) → T.cmp x y ≡ Equal → x ≡ y) → (xs ys : List T) → IsInOrderOf T.cmp xs ys → ys ≡ in_order T.cmp xs }
{}

/// Two lists differ nowhere exactly where they are one list. Else they agree before the place where they first differ,
/// and there they have different items, or one of them has none.
pub fn difference_laws<T: PartialEq>()
    ensures none { ((x y : T) → IsTrue (T.eq x y) ↔ (x ≡ y)) → (xs ys : List T) → (list_difference T.eq xs ys ≡ None) ↔ (xs ≡ ys) }
    ensures some { ((x y : T) → IsTrue (T.eq x y) ↔ (x ≡ y)) → (xs ys : List T) (r : ℕ) →
        list_difference T.eq xs ys ≡ Some r → (take r xs ≡ take r ys) × (slice_get xs r ≢ slice_get ys r) }
{}

/// A climb is 0 exactly where the second number is the first or the one after it, modulo p.
pub fn climb_laws()
    ensures { (a b : ℕ) → (climb a b ≡ 0) ↔ ((b % prime ≡ a % prime) ⊎ (b % prime ≡ (a + 1) % prime)) }
{}

/// Nothing is found between neighbours exactly where nothing is at any place. Else it is found between an item and the
/// next, and at no place before.
pub fn neighbour_laws<T>()
    ensures none { (found : T → T → Option ℕ) (xs : List T) →
        (first_between found xs ≡ None) ↔ AllNeighbours (λ x y. found x y ≡ None) xs }
    ensures some { (found : T → T → Option ℕ) (xs : List T) (i n : ℕ) → first_between found xs ≡ Some (i, n) →
        (i + 1 < length xs) × AllAdjacentBelow (λ x y. found x y ≡ None) xs (i + 1)
        × ((d : T) → found (slice_index_or xs i d) (slice_index_or xs (i + 1) d) ≡ Some n) }
{}
